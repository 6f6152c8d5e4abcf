// The entries of the crate `types`. A conversion returns the refusal's number, 0 where there is none. Its value is an i64 in the first eight bytes of
// `answer`, little-endian; all other bytes are zero, and all of them where it is refused.
ghost use Rattle.std.specs.Prelude.{◌≡◌, length};
ghost use Rattle.std.specs.Float.{binary64};
ghost use Rattle.std.specs.Float.Ieee.{of_bits};
ghost use Rattle.types.specs.Fixed.{to_fixed, to_cents};
ghost use Rattle.types.specs.Order.{sign_extended, truncated};
ghost use Rattle.answers.specs.FixedAnswer.{refusal_in, bytes_in};

use answers::fixed_answer;

// Entry. `f64_to_fixed_checked` of the f64s that have the bits value and scale.
#[unsafe(no_mangle)]
pub extern "C" fn desk_f64_to_fixed_checked(value: u64, scale: u64, answer: &mut [u8]) -> u32
    ensures value { result ≡ refusal_in (to_fixed (of_bits binary64 value) (of_bits binary64 scale)) (length answer.old) }
    ensures answer_after { answer.new ≡ bytes_in (to_fixed (of_bits binary64 value) (of_bits binary64 scale)) (length answer.old) }
{
    let r = types::fixed::f64_to_fixed_checked(
        float::bits::from_bits(value),
        float::bits::from_bits(scale),
    );
    fixed_answer::give_fixed(r, answer)
}

// Entry. `f64_cents_checked` of the f64 that has the bits value.
#[unsafe(no_mangle)]
pub extern "C" fn desk_f64_cents_checked(value: u64, answer: &mut [u8]) -> u32
    ensures value { result ≡ refusal_in (to_cents (of_bits binary64 value)) (length answer.old) }
    ensures answer_after { answer.new ≡ bytes_in (to_cents (of_bits binary64 value)) (length answer.old) }
{
    let r = types::fixed::f64_cents_checked(float::bits::from_bits(value));
    fixed_answer::give_fixed(r, answer)
}

// Entry. An i32 ibkr_id `as u64`.
#[unsafe(no_mangle)]
pub extern "C" fn desk_sign_extended(ibkr: i32) -> u64
    ensures { result ≡ sign_extended ibkr }
{
    types::order::sign_extended(ibkr)
}

// Entry. An i64 `as i32`.
#[unsafe(no_mangle)]
pub extern "C" fn desk_truncated_i32(n: i64) -> i32
    ensures { result ≡ truncated n }
{
    types::order::truncated_i32(n)
}
