// An f64 as a whole number of cents, or of any other part: `f64_to_fixed_checked` and `f64_cents_checked`.
// Refused are a value that is not finite (9) and a result outside i64 (10).
ghost use Rattle.std.specs.Prelude.{◌≡◌, ◌*◌, ◌^◌, ◌<◌, ◌≤◌, min};
ghost use Rattle.std.specs.Float.{binary64};
ghost use Rattle.std.specs.Float.Ieee.{of_bits};
ghost use Rattle.types.specs.Fixed.{away, round_away, in_range, to_fixed, to_cents};

use float::bits::{is_finite, to_bits};
use float::parts::parts_of;
use wire::refusal::Refusal;

// digits * 2^power / 2^1074 to the nearest whole number, a half up; u64::MAX from there on.
fn half_up(digits: u64, power: u64) -> u64
    requires short { digits < 2 ^ 53 }
    requires normal { 0 < power → 2 ^ 52 ≤ digits }
    ensures { result ≡ min (away (digits * 2 ^ power) (2 ^ 1074)) 0xffff_ffff_ffff_ffff }
{
    if power >= 1086 {
        u64::MAX
    } else if power >= 1074 {
        digits << (power - 1074)
    } else {
        let s = 1074 - power;
        if s >= 63 {
            0
        } else {
            (digits + (1 << (s - 1))) >> s
        }
    }
}

// The f64 that has the bits n, rounded half away from zero, in range and cast.
fn rounded(n: u64) -> Result<i64, Refusal>
    ensures { result ≡ in_range (round_away binary64 (of_bits binary64 n)) }
{
    if n % 0x8000_0000_0000_0000 >= 0x7ff0_0000_0000_0000 {
        return Err(Refusal::OutOfRange);
    }
    let parts = parts_of(n);
    let m = half_up(parts.digits, parts.power);
    if n >= 0x8000_0000_0000_0000 {
        0i64.checked_sub_unsigned(m).ok_or(Refusal::OutOfRange)
    } else {
        i64::try_from(m).map_err(|_| Refusal::OutOfRange)
    }
}

// Entry. value * scale, rounded half away from zero, as an i64. Refused are a value that is not finite (9), then a result that is not from -2^63 up to but
// excluding 2^63, or not a number (10).
pub fn f64_to_fixed_checked(value: f64, scale: f64) -> Result<i64, Refusal>
    ensures { result ≡ to_fixed value scale }
{
    if is_finite(value) {
        rounded(to_bits(value * scale))
    } else {
        Err(Refusal::NotFinite)
    }
}

// Entry. The same at scale 100.0: cents.
pub fn f64_cents_checked(value: f64) -> Result<i64, Refusal>
    ensures { result ≡ to_cents value }
{
    f64_to_fixed_checked(value, 100.0)
}
