// The entries of the crate `float`, by bits: each is a composition of them and promises what they do.
ghost use Rattle.std.specs.Prelude.{◌≡◌, pos};
ghost use Rattle.std.specs.Float.{binary64};
ghost use Rattle.std.specs.Float.Ieee.{of_bits, to_bits, to_signed, of_int};
ghost use Rattle.float.specs.Bits.{is_finite};
ghost use Rattle.float.specs.Root.{sqrt};

// Entry. The bits of the f64 that has the bits n: n itself, but for a NaN's, which become 0x7ff8_0000_0000_0000.
#[unsafe(no_mangle)]
pub extern "C" fn desk_f64_bits(n: u64) -> u64
    ensures { result ≡ to_bits binary64 (of_bits binary64 n) }
{
    float::bits::to_bits(float::bits::from_bits(n))
}

// Entry. Whether the f64 that has the bits n is finite.
#[unsafe(no_mangle)]
pub extern "C" fn desk_is_finite(n: u64) -> bool
    ensures { result ≡ is_finite (of_bits binary64 n) }
{
    float::bits::is_finite(float::bits::from_bits(n))
}

// Entry. `as i64` of the f64 that has the bits n.
#[unsafe(no_mangle)]
pub extern "C" fn desk_saturating_i64(n: u64) -> i64
    ensures { result ≡ to_signed 63 (of_bits binary64 n) }
{
    float::bits::saturating_i64(float::bits::from_bits(n))
}

// Entry. The bits of n `as f64`.
#[unsafe(no_mangle)]
pub extern "C" fn desk_nearest_i64(n: i64) -> u64
    ensures { result ≡ to_bits binary64 (of_int binary64 n) }
{
    float::bits::to_bits(float::bits::nearest_i64(n))
}

// Entry. The bits of n `as f64`.
#[unsafe(no_mangle)]
pub extern "C" fn desk_nearest_u64(n: u64) -> u64
    ensures { result ≡ to_bits binary64 (of_int binary64 (pos n)) }
{
    float::bits::to_bits(float::bits::nearest_u64(n))
}

// Entry. The bits of the square root of the f64 that has the bits n.
#[unsafe(no_mangle)]
pub extern "C" fn desk_sqrt(n: u64) -> u64
    ensures { result ≡ to_bits binary64 (sqrt binary64 (of_bits binary64 n)) }
{
    float::bits::to_bits(float::root::sqrt(float::bits::from_bits(n)))
}
