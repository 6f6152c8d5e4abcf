// What the entries of `exports` return and write: the writers that they share, and a conversion's answer. The others are in `log_answers`, `drift_answers`,
// `marks_answers`, `recovery_answers` and `round_answers`.
//
// A result is the refusal's number, and two numbers in the first sixteen bytes of `answer` or a record of another size; `specs/` says which. An answer
// that has no room is refused by 3, after every other refusal, and then its bytes and the outputs beside it are zero.
#![tactic(auto)]

ghost use Rattle.std.specs.Prelude.{◌≡◌, length};
ghost use Rattle.answers.specs.Answer.{room_number, unless_short, answer_number, answer_bytes, refused_numbers};
ghost use Rattle.wire.specs.Layout.{refused};

use wire::refusal::Refusal;

pub mod fixed_answer;

// A refusal's number and the two numbers of an answer: numbers, as C gets them. Each sort of answer has a function of two arms that makes them, most in the
// `*_answers` crates: one function over a closure would say both numbers in its clause and the closure's, and each promise has its own definition.
#[derive(Clone, Copy)]
pub struct Numbers {
    pub refusal: u32,
    pub a: u64,
    pub b: u64,
}

// The numbers of an answer that is refused.
impl From<Refusal> for Numbers {
    ghost from_gives = { λ r n. n ≡ refused_numbers r };

    fn from(r: Refusal) -> Numbers {
        Numbers {
            refusal: r.into(),
            a: 0,
            b: 0,
        }
    }
}

// The number of a test's refusal, 0 where there is none. `cases::refusal` is for the programs, which the library does not stand on.
pub fn refused(r: Result<(), Refusal>) -> u32
    ensures { result ≡ refused r }
{
    match r {
        Ok(()) => 0,
        Err(refusal) => refusal.into(),
    }
}

// The number where there is no room for an answer.
fn without_room(refusal: u32) -> u32
    ensures { result ≡ answer_number refusal 0 }
{
    if refusal == 0 { 3 } else { refusal }
}

// What an answer of so many bytes is in its room: the refusal's number, or that of an answer without room, and then all bytes are zero.
pub fn within(answer: &mut [u8], size: usize, refusal: u32) -> u32
    ensures { (result ≡ room_number size refusal (length answer.old)) × (answer.new ≡ unless_short size (length answer.old) (length answer.old) answer.old) }
{
    if answer.len() < size {
        wire::clear(answer);
        return without_room(refusal);
    }
    refusal
}

// Writes two numbers in sixteen bytes and returns the answer's number. `give_value` is of one number in eight: both have a usual room without a test.
pub fn give(n: Numbers, answer: &mut [u8]) -> u32
    ensures { (result ≡ answer_number n.refusal (length answer.old)) × (answer.new ≡ answer_bytes n.a n.b (length answer.old)) }
{
    // The usual room: all its bytes are written, so none is cleared before.
    if answer.len() == 16 {
        wire::put_whole_u64(answer, 0, n.a);
        wire::put_whole_u64(answer, 8, n.b);
        return n.refusal;
    }
    wire::clear(answer);
    wire::put_u64(answer, 0, n.a);
    wire::put_u64(answer, 8, n.b);
    within(answer, 16, n.refusal)
}

// An output beside an answer: all zero where the answer has no room.
pub fn clear_if_short(d: &mut [u8], size: usize, room: usize)
    ensures { d.new ≡ unless_short size room (length d.old) d.old }
{
    if room < size {
        wire::clear(d);
    }
}

// Two outputs beside an answer.
pub fn clear_both_if_short(d: &mut [u8], e: &mut [u8], size: usize, room: usize)
    ensures { (d.new ≡ unless_short size room (length d.old) d.old) × (e.new ≡ unless_short size room (length e.old) e.old) }
{
    clear_if_short(d, size, room);
    clear_if_short(e, size, room);
}

// The answer of two numbers beside an output.
pub fn give_beside(n: Numbers, out: &mut [u8], answer: &mut [u8]) -> u32
    ensures { (result ≡ answer_number n.refusal (length answer.old)) × (out.new ≡ unless_short 16 (length answer.old) (length out.old) out.old) × (answer.new ≡ answer_bytes n.a n.b (length answer.old)) }
{
    let room = answer.len();
    clear_if_short(out, 16, room);
    give(n, answer)
}
