// Little-endian numbers in lent bytes: read from a slice, written into one, and whole slices copied, cleared and compared.
//
// Reading past the end gives zeros, and what would be written past the end is dropped. Only `rest`, the `whole_` readers and `put_whole_u64` have
// a `requires`: their bytes are known by the caller to be there, so they have no test. The contracts cite `specs/Le.antt`; `specs/Table.antt` and the
// laws of `proofs/` are for the crates that read and write tables of records.
//
// A reader and a writer for each width: `from_le_bytes` and `to_le_bytes` are methods of each type, and no trait has them. What the readers share, `whole` and
// `bytes_at`, is generic in the width. A writer takes a buffer and a place: records have their fields at fixed places, so a struct of the two would be made anew
// for each field.
#![tactic(auto)]

pub mod refusal;

ghost use Rattle.std.specs.Prelude.{◌≡◌, ◌+◌, ◌*◌, ◌≤◌, length, take, drop, replicate};
ghost use Rattle.std.proofs.lemmas.List.Edits.{sets};
ghost use Rattle.std.specs.Int.{w64};
ghost use Rattle.std.proofs.Common.{to_z, of_z};
ghost use Rattle.wire.specs.Le.{le, bytes_of, same_bytes};

use std::array;

// What is left of `s` from `at` on: nothing where `at` is past the end.
pub fn from(s: &[u8], at: usize) -> &[u8]
    ensures { result.now ≡ drop at s.now }
{
    &s[at.min(s.len())..]
}

// The `len` bytes from `at` on, or as many of them as there are.
pub fn part(s: &[u8], at: usize, len: usize) -> &[u8]
    ensures { result.now ≡ take len (drop at s.now) }
{
    let rest = from(s, at);
    &rest[..len.min(rest.len())]
}

// Of bytes that are known to be there, read with no test: what is left from `at` on, the first N bytes, and the number in the first four and eight.
pub fn rest(s: &[u8], at: usize) -> &[u8]
    requires { at ≤ length s.now }
    ensures { result.now ≡ drop at s.now }
{
    &s[at..]
}

fn whole<const N: usize>(s: &[u8]) -> [u8; N]
    requires { N ≤ length s.now }
    ensures { le N result ≡ le N s.now }
{
    array::from_fn(|i| s[i])
}

pub fn whole_u32(s: &[u8]) -> u32
    requires { 4 ≤ length s.now }
    ensures { result ≡ le 4 s.now }
{
    u32::from_le_bytes(whole(s))
}

pub fn whole_u64(s: &[u8]) -> u64
    requires { 8 ≤ length s.now }
    ensures { result ≡ le 8 s.now }
{
    u64::from_le_bytes(whole(s))
}

// Such a number at a place.
pub fn whole_u32_at(s: &[u8], at: usize) -> u32
    requires { at + 4 ≤ length s.now }
    ensures { result ≡ le 4 (drop at s.now) }
{
    whole_u32(rest(s, at))
}

pub fn whole_u64_at(s: &[u8], at: usize) -> u64
    requires { at + 8 ≤ length s.now }
    ensures { result ≡ le 8 (drop at s.now) }
{
    whole_u64(rest(s, at))
}

// The N bytes from `at` on, and zeros past the end. One test serves them all where all are there.
fn bytes_at<const N: usize>(s: &[u8], at: usize) -> [u8; N]
    ensures { le N result ≡ le N (drop at s.now) }
{
    if N <= s.len() && at <= s.len() - N {
        return whole(rest(s, at));
    }
    let rest = from(s, at);
    array::from_fn(|i| u8_at(rest, i))
}

// The number in the first four bytes, and in the first eight.
pub fn u32_of(s: &[u8]) -> u32
    ensures { result ≡ le 4 s.now }
{
    u32_at(s, 0)
}

pub fn u64_of(s: &[u8]) -> u64
    ensures { result ≡ le 8 s.now }
{
    u64_at(s, 0)
}

// A number at a place: the byte, and two, four and eight of them.
pub fn u8_at(s: &[u8], at: usize) -> u8
    ensures { result ≡ le 1 (drop at s.now) }
{
    s.get(at).copied().unwrap_or(0)
}

pub fn u16_at(s: &[u8], at: usize) -> u16
    ensures { result ≡ le 2 (drop at s.now) }
{
    u16::from_le_bytes(bytes_at(s, at))
}

pub fn u32_at(s: &[u8], at: usize) -> u32
    ensures { result ≡ le 4 (drop at s.now) }
{
    u32::from_le_bytes(bytes_at(s, at))
}

pub fn u64_at(s: &[u8], at: usize) -> u64
    ensures { result ≡ le 8 (drop at s.now) }
{
    u64::from_le_bytes(bytes_at(s, at))
}

// Bits read as a signed number, and a signed number's bits (two's complement): public names of the library's casts, which
// docs/PROVING.md has.
pub fn signed(bits: u64) -> i64
    ensures { result ≡ to_z w64 bits }
{
    bits.cast_signed()
}

pub fn unsigned(x: i64) -> u64
    ensures { result ≡ of_z w64 x }
{
    x.cast_unsigned()
}

// A signed number in the eight bytes at a place.
pub fn i64_at(s: &[u8], at: usize) -> i64
    ensures { result ≡ to_z w64 (le 8 (drop at s.now)) }
{
    u64_at(s, at).cast_signed()
}

// Writes the `n` low bytes of `x` from `at` on, least first; bytes above the eighth are zero.
pub fn put(d: &mut [u8], at: usize, n: usize, x: u64)
    ensures { d.new ≡ sets d.old at (bytes_of n x) }
{
    let end = at.saturating_add(n).min(d.len());
    let mut rest = x;
    for i in at..end {
        d[i] = (rest % 256) as u8;
        rest /= 256;
    }
}

// Writes a number of one byte at a place, and of four and eight. One test serves all the bytes; where not all of them are there, `put` writes
// those that are.
pub fn put_u8(d: &mut [u8], at: usize, x: u8)
    ensures { d.new ≡ sets d.old at (bytes_of 1 x) }
{
    if at < d.len() {
        d[at] = x;
    }
}

pub fn put_u32(d: &mut [u8], at: usize, x: u32)
    ensures { d.new ≡ sets d.old at (bytes_of 4 x) }
{
    if 4 <= d.len() && at <= d.len() - 4 {
        d[at..at + 4].copy_from_slice(&x.to_le_bytes());
    } else {
        put(d, at, 4, u64::from(x));
    }
}

// Writes a number of eight bytes that are known to be there.
pub fn put_whole_u64(d: &mut [u8], at: usize, x: u64)
    requires { at + 8 ≤ length d.old }
    ensures { d.new ≡ sets d.old at (bytes_of 8 x) }
{
    d[at..at + 8].copy_from_slice(&x.to_le_bytes());
}

pub fn put_u64(d: &mut [u8], at: usize, x: u64)
    ensures { d.new ≡ sets d.old at (bytes_of 8 x) }
{
    if 8 <= d.len() && at <= d.len() - 8 {
        put_whole_u64(d, at, x);
    } else {
        put(d, at, 8, x);
    }
}

// Writes the bytes of `s` from `at` on.
pub fn copy(d: &mut [u8], at: usize, s: &[u8])
    ensures { d.new ≡ sets d.old at s.now }
{
    if at <= d.len() {
        let n = s.len().min(d.len() - at);
        d[at..at + n].copy_from_slice(&s[..n]);
    }
}

// The same, and returns how many bytes they are.
pub fn put_text(d: &mut [u8], at: usize, s: &[u8]) -> usize
    ensures { (result ≡ length s.now) × (d.new ≡ sets d.old at s.now) }
{
    copy(d, at, s);
    s.len()
}

// Makes every byte of `d` zero.
pub fn clear(d: &mut [u8])
    ensures { d.new ≡ replicate (length d.old) 0 }
{
    d.fill(0);
}

// Whether two slices hold the same bytes: `==`, with what it says in the words of `specs/Le.antt`.
pub fn same(a: &[u8], b: &[u8]) -> bool
    ensures { result ≡ same_bytes a.now b.now }
{
    a == b
}
