// Kind 1, a log. Inputs: book 1, sheet 2, queries 3, window 4, numbers 5. The sections of answers up to 15; those after it are in `addenda`.
use crate::{addenda, recover};
use recorded::case::{Case, records};
use recorded::saved::State;
use recorded::tally::Sort;
use std::io;

// Section 6.
fn verdict<R: Print>(case: &mut Case<'_, R>) -> io::Result<()> {
    let verdict = audit::validate::validate_checkpoints_from_parsed(case.section(1));
    let n = log_answers::verdict_numbers(verdict);
    case.numbers(Sort::Verdicts, 6, &[n.refusal.into(), n.a, n.b])
}

// Section 7.
fn highest<R: Print>(case: &mut Case<'_, R>) -> io::Result<()> {
    let highest = sequence::max_checkpoint_sequence(case.section(1));
    let n = log_answers::highest_numbers(highest);
    case.numbers(Sort::Highest, 7, &[n.refusal.into(), n.a])
}

// Section 8.
fn window<R: Print>(case: &mut Case<'_, R>) -> io::Result<()> {
    let complete = sequence::check_window_already_complete(case.section(1), case.section(4));
    let n = log_answers::window_numbers(complete);
    case.numbers(Sort::Windows, 8, &[n.refusal.into(), n.a, n.b])
}

// Section 9.
fn desk<R: Print>(case: &mut Case<'_, R>) -> io::Result<()> {
    let mut out = [0; 4096];
    let length = reply::reply(case.section(1), case.section(2), &mut out).unwrap_or(0);
    case.bytes(Sort::Replies, 9, wire::part(&out, 0, length))
}

// The time of recovery.
pub fn now<R: Print>(case: &Case<'_, R>) -> i64 {
    case.number_in(5, 0).cast_signed()
}

// The refusal of a recovery with lent room.
fn lent_recovery<R: Print>(case: &Case<'_, R>) -> u32 {
    let (orders, positions) = (case.number_in(5, 3), case.number_in(5, 4));
    recover::recover_in(case.section(1), now(case), orders, positions)
}

// The refusal of a comparison with lent room.
fn lent_comparison<R: Print>(case: &Case<'_, R>, s: &State) -> u32 {
    let mut out = [0; 4096];
    let n = out.len().min(case.number_in(5, 5) as usize);
    s.compare(case.section(2), &mut out[..n]).refusal
}

// Sections 14 and 15.
fn compared<R: Print>(case: &mut Case<'_, R>, s: &State) -> io::Result<()> {
    let mut out = [0; 4096];
    let n = s.compare(case.section(2), &mut out);
    let lent = lent_comparison(case, s).into();
    case.numbers(Sort::Comparisons, 14, &[n.refusal.into(), lent])?;
    case.bytes(Sort::Reports, 15, records(&out, n.a, 48))
}

// The sections on the state that was recovered: 11 to 21.
fn state_sections<R: Print>(case: &mut Case<'_, R>, s: &State) -> io::Result<()> {
    case.bytes(Sort::Marks, 11, s.marks())?;
    case.bytes(Sort::Orders, 12, s.orders())?;
    case.bytes(Sort::Positions, 13, s.positions())?;
    compared(case, s)?;
    addenda::replay(case, s)
}

// Sections 10 to 21; the last is 10 where recovery is refused.
fn recovered<R: Print>(case: &mut Case<'_, R>) -> io::Result<()> {
    let (refusal, s) = recover::recover(case.section(1), now(case));
    let lent = lent_recovery(case).into();
    case.numbers(Sort::Recoveries, 10, &[refusal.into(), lent, s.action()])?;
    if refusal == 0 {
        state_sections(case, &s)?;
    }
    Ok(())
}

pub fn replay<R: Print>(case: &mut Case<'_, R>) -> io::Result<()> {
    verdict(case)?;
    highest(case)?;
    window(case)?;
    desk(case)?;
    recovered(case)
}
