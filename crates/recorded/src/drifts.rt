// Kind 2, drift. Inputs: holdings 1, targets 2, prices 3, numbers 4 (equity, room for entries).
use crate::case::{Case, records};
use crate::tally::Sort;
use std::io;

// Sections 5, the refusal and the tracking error, and 6.
fn reconciled<R: Print>(case: &mut Case<'_, R>) -> io::Result<()> {
    let mut out = [0; 4096];
    let room = out.len().min(case.number_in(4, 1) as usize);
    let n = drift_answers::drift_numbers(drift::report::reconcile(
        case.section(1),
        case.section(2),
        case.section(3),
        case.number_in(4, 0).cast_signed(),
        &mut out[..room],
    ));
    case.numbers(Sort::Drifts, 5, &[n.refusal.into(), n.b])?;
    case.bytes(Sort::Entries, 6, records(&out, n.a, 64))
}

// Section 7.
fn held<R: Print>(case: &mut Case<'_, R>) -> io::Result<()> {
    let n = drift_answers::held_numbers(held::held_value(case.section(1), case.section(3)));
    case.numbers(Sort::Held, 7, &[n.refusal.into(), n.a])
}

pub fn replay<R: Print>(case: &mut Case<'_, R>) -> io::Result<()> {
    reconciled(case)?;
    held(case)
}
