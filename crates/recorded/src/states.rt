// Kind 4, lent states. Inputs: two states of book, marks, orders and positions, 1 to 4 and 5 to 8; sheet 9, queries 10, numbers 11. Section 12, the action, is the program's own.
use crate::case::{Case, records};
use crate::saved::State;
use crate::tally::Sort;
use intents::Reconciled;
use std::io;

// Sections 13 and 14.
fn compared<R: Print>(case: &mut Case<'_, R>, s: &State) -> io::Result<()> {
    let mut out = [0; 4096];
    let room = out.len().min(case.number_in(11, 1) as usize);
    let n = s.compare(case.section(9), &mut out[..room]);
    case.numbers(Sort::Comparisons, 13, &[n.refusal.into()])?;
    case.bytes(Sort::Reports, 14, records(&out, n.a, 48))
}

// Sections 15 and 16.
fn reconciled<R: Print>(case: &mut Case<'_, R>, s: &State) -> io::Result<()> {
    let mut out = [0; 4096];
    let room = out.len().min(case.number_in(11, 2) as usize);
    let (sheet, queries) = (case.section(9), case.section(10));
    let time = case.number_in(11, 0).cast_signed();
    let r = s.reconcile(sheet, queries, time, &mut out[..room]);
    let refusal = cases::refusal(r).into();
    let n = r.unwrap_or(Reconciled {
        entries: 0,
        unreached: 0,
        length: 0,
    });
    case.numbers(
        Sort::Reconcilings,
        15,
        &[refusal, n.entries.into(), n.unreached.into()],
    )?;
    case.bytes(Sort::Addenda, 16, wire::part(&out, 0, n.length))
}

// Section 17.
fn equality<R: Print>(case: &mut Case<'_, R>, s: &State) -> io::Result<()> {
    let other = State::lent(case, 6);
    let n = s.equal(case.section(1), &other, case.section(5));
    case.numbers(Sort::Equalities, 17, &[n.refusal.into(), n.a])
}

// Sections 13 to 17, of the first lent state.
pub fn replay<R: Print>(case: &mut Case<'_, R>, s: &State) -> io::Result<()> {
    compared(case, s)?;
    reconciled(case, s)?;
    equality(case, s)
}
