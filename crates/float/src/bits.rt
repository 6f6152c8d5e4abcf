// An f64 and its 64 bits, whether it is finite, and the casts between f64 and the 64-bit integers.
ghost use Rattle.std.specs.Prelude.{◌≡◌, pos, from_bits, to_bits};
ghost use Rattle.std.specs.Float.{binary64};
ghost use Rattle.std.specs.Float.Ieee.{to_signed, of_int};
ghost use Rattle.float.specs.Bits.{is_finite};

// Entry. The f64 that has the bits n. Every NaN's bits give a NaN.
pub fn from_bits(n: u64) -> f64
    ensures { result ≡ from_bits binary64 n }
{
    if n % 0x8000_0000_0000_0000 <= 0x7ff0_0000_0000_0000 {
        f64::from_bits(n)
    } else {
        0.0 / 0.0
    }
}

// Entry. The bits of x. A NaN, whose sign and payload no contract can name, gives 0x7ff8_0000_0000_0000.
pub fn to_bits(x: f64) -> u64
    ensures { result ≡ to_bits binary64 x }
{
    if x != x {
        0x7ff8_0000_0000_0000
    } else {
        f64::to_bits(x)
    }
}

// Entry. Whether x is neither an infinity nor a NaN.
pub fn is_finite(x: f64) -> bool
    ensures { result ≡ is_finite x }
{
    to_bits(x) % 0x8000_0000_0000_0000 < 0x7ff0_0000_0000_0000
}

// Entry. Rust's `x as i64`: toward zero, to the nearer end outside the range, 0 for a NaN.
pub fn saturating_i64(x: f64) -> i64
    ensures { result ≡ to_signed 63 x }
{
    if x >= -9223372036854775808.0 {
        if x < 9223372036854775808.0 {
            std::num::truncating_f64_to_i64(x)
        } else {
            i64::MAX
        }
    } else if x < 0.0 {
        i64::MIN
    } else {
        0
    }
}

// Entry. Rust's `n as f64`: the nearest f64, ties to even.
pub fn nearest_i64(n: i64) -> f64
    ensures { result ≡ of_int binary64 n }
{
    std::num::nearest_i64_to_f64(n)
}

// Entry. Rust's `n as f64`: the nearest f64, ties to even.
pub fn nearest_u64(n: u64) -> f64
    ensures { result ≡ of_int binary64 (pos n) }
{
    std::num::nearest_u64_to_f64(n)
}
