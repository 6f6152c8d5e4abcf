// Kind 3, a conversion. Inputs: numbers 1 (the bits of value and scale). Section 2 has five numbers: two for each conversion, then the cast.
use crate::body;
use crate::case::Case;
use crate::tally::Sort;
use std::io;
use wire::refusal::Refusal;

// A conversion's refusal and value.
fn numbers(x: Result<i64, Refusal>) -> [u64; 2] {
    match x {
        Ok(v) => [0, v.cast_unsigned()],
        Err(refusal) => [u32::from(refusal).into(), 0],
    }
}

pub fn replay<R: Print>(case: &mut Case<'_, R>) -> io::Result<()> {
    let value = float::bits::from_bits(case.number_in(1, 0));
    let scale = float::bits::from_bits(case.number_in(1, 1));
    let recorded = case.section(2);
    let fixed = numbers(types::fixed::f64_to_fixed_checked(value, scale));
    let agrees = body::is_numbers(wire::part(recorded, 0, 16), &fixed);
    case.compared(Sort::Fixed, 2, agrees)?;
    let cents = numbers(types::fixed::f64_cents_checked(value));
    let agrees = body::is_numbers(wire::part(recorded, 16, 16), &cents);
    case.compared(Sort::Cents, 2, agrees)?;
    // The cast is the section's last number.
    let cast = float::bits::saturating_i64(value).cast_unsigned();
    let agrees = body::is_numbers(wire::from(recorded, 32), &[cast]);
    case.compared(Sort::Casts, 2, agrees)
}
