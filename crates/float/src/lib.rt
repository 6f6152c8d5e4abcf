// f64 values: from and to their bits, whether they are finite, casts with integers as Rust's `as` has them, and the square root.
// Every entry answers for every f64 and every bit pattern; nothing here is refused.
#![tactic(auto)]

pub mod bits;
pub mod parts;
pub mod root;
