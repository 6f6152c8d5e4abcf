// A conversion's answer: an i64 in the first eight bytes, little-endian; all other bytes are zero, and all of them where it is refused.
ghost use Rattle.std.specs.Prelude.{◌≡◌, length};
ghost use Rattle.answers.specs.FixedAnswer.{refusal_in, bytes_in};

use wire::refusal::Refusal;

// Writes a value.
fn give_value(v: i64, answer: &mut [u8]) -> u32
    ensures { (result ≡ refusal_in (Ok v) (length answer.old)) × (answer.new ≡ bytes_in (Ok v) (length answer.old)) }
{
    // The usual room: all its bytes are written, so none is cleared before.
    if answer.len() == 8 {
        wire::put_whole_u64(answer, 0, v.cast_unsigned());
        return 0;
    }
    wire::clear(answer);
    wire::put_u64(answer, 0, v.cast_unsigned());
    crate::within(answer, 8, 0)
}

// Writes a conversion's value in eight bytes and returns the answer's number: 9 and 10, then 3 where there is no room.
pub fn give_fixed(r: Result<i64, Refusal>, answer: &mut [u8]) -> u32
    ensures { (result ≡ refusal_in r (length answer.old)) × (answer.new ≡ bytes_in r (length answer.old)) }
{
    match r {
        Ok(v) => give_value(v, answer),
        Err(refusal) => {
            wire::clear(answer);
            refusal.into()
        }
    }
}
