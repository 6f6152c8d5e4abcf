// The correctly rounded square root, worked out over whole numbers from the bits.
//
// A positive finite f64 is w * 2^e of its smallest units squared, w having 53 digits and one more where e is odd. The root of w * 2^52 has 53 digits: the first
// 14 are found one at a time, the next 13 by a division, the last 26 by another, and what is left of w * 2^52 above their square says whether the root lies
// nearer to the next number.
ghost use Rattle.std.specs.Prelude.{◌≡◌, ◌+◌, ◌*◌, ◌^◌, ◌<◌, ◌≤◌, from_bits};
ghost use Rattle.std.specs.Float.{binary64};
ghost use Rattle.float.specs.Root.{sqrt};

use crate::bits::{from_bits, to_bits};
use crate::parts::parts_of;

// The digits of a root so far, and what is left of the number above their square: less than one more in the last digit would take.
#[derive(Clone, Copy)]
struct Digits {
    root: u64,
    left: u64,
    ghost whole: { left ≤ 2 * root },
}

// One more digit of a root, of a number that is four times as large and pair more.
fn next_digit(first: Digits, pair: u64) -> Digits
    requires room { first.root < 2 ^ 53 }
    requires digit { pair < 4 }
    ensures number { result.root * result.root + result.left ≡ 4 * (first.root * first.root + first.left) + pair }
    ensures most { result.root ≤ 2 * first.root + 1 }
{
    let left = 4 * first.left + pair;
    let trial = 4 * first.root + 1;
    let digit = (trial <= left) as u64;
    Digits {
        root: 2 * first.root + digit,
        left: left - digit * trial,
    }
}

// The whole part of the square root of w, and what is left.
fn first_digits(w: u64) -> Digits
    requires { w < 2 ^ 28 }
    ensures number { result.root * result.root + result.left ≡ w }
    ensures short { result.root < 2 ^ 14 }
{
    let mut digits = Digits { root: 0, left: 0 };
    let mut rest = w;
    for _i in 0..14u64 {
        digits = next_digit(digits, rest / 0x400_0000);
        rest = rest % 0x400_0000 * 4;
    }
    digits
}

// One more digit of a root in base b, of a number that is b * b times as large and hi * b + lo more. A division by twice the root gives the digit, or one too many.
fn wide_digit(first: Digits, b: u64, hi: u64, lo: u64) -> Digits
    requires short { first.root < 2 ^ 27 }
    requires base { b ≤ 2 ^ 26 }
    requires base_below { b ≤ 2 * first.root }
    requires high { hi < b }
    requires low { lo < b }
    ensures number { result.root * result.root + result.left ≡ (first.root * first.root + first.left) * (b * b) + (hi * b + lo) }
    ensures least { first.root * b ≤ result.root }
    ensures most { result.root < first.root * b + b }
{
    let number = first.left * b + hi;
    let digit = number / (2 * first.root);
    let above = number % (2 * first.root) * b + lo;
    let next = first.root * b + digit;
    let square = digit * digit;
    if square <= above {
        return Digits {
            root: next,
            left: above - square,
        };
    }
    Digits {
        root: next - 1,
        left: above + (2 * next - 1) - square,
    }
}

// The whole part of the square root of w * 2^52, and what is left.
fn digits_of(w: u64) -> Digits
    requires long { 2 ^ 52 ≤ w }
    requires short { w < 2 ^ 54 }
    ensures number { result.root * result.root + result.left ≡ w * 2 ^ 52 }
    ensures most { result.root < 2 ^ 53 }
{
    let first = first_digits(w / 0x400_0000);
    let half = wide_digit(first, 0x2000, w / 0x2000 % 0x2000, w % 0x2000);
    wide_digit(half, 0x400_0000, 0, 0)
}

// How far d is shifted to have 53 digits.
fn shift_of(d: u64) -> u64
    requires some { 0 < d }
    requires short { d < 2 ^ 53 }
    ensures { (result ≤ 52) × (2 ^ 52 ≤ d * 2 ^ result) × (d * 2 ^ result < 2 ^ 53) }
{
    u64::from(d.leading_zeros()) - 11
}

// The bits of the square root of the positive finite f64 that has the bits n.
fn root_bits(n: u64) -> u64
    requires some { 0 < n }
    requires finite { n < 0x7ff0_0000_0000_0000 }
    ensures { from_bits binary64 result ≡ sqrt binary64 (from_bits binary64 n) }
{
    let parts = parts_of(n);
    let d = parts.digits;
    let z = shift_of(d);
    let e = parts.power + 1074 - z;
    let g = digits_of((d << z) * (1 + e % 2));
    let k = (e / 2 - 26) * 0x10_0000_0000_0000;
    if g.root < g.left {
        k + (g.root + 1)
    } else {
        k + g.root
    }
}

// Entry. The square root of x, correctly rounded: a NaN of what is below zero, and of -0 it is -0.
pub fn sqrt(x: f64) -> f64
    ensures { result ≡ sqrt binary64 x }
{
    if x > 0.0 {
        let n = to_bits(x);
        if n < 0x7ff0_0000_0000_0000 {
            from_bits(root_bits(n))
        } else {
            x
        }
    } else if x == 0.0 {
        x
    } else {
        0.0 / 0.0
    }
}
