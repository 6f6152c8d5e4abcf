// Kind 1, sections 16 to 21: the recovered state reconciled, the addendum joined to the book, and what is recovered from the joined book.
use crate::{logs, recover};
use answers::Numbers;
use intents::Reconciled;
use recorded::case::Case;
use recorded::saved::State;
use recorded::tally::Sort;
use std::io;
use wire::refusal::Refusal;

// The join of a book and the first k events of another.
pub fn join(a: &[u8], b: &[u8], k: u64, out: &mut [u8]) -> Numbers {
    round_answers::joining_numbers(join::join(a, b, k, out))
}

// The refusal of the join with so many bytes of a buffer lent. It calls the function above: the room alone is another. The buffer is the one that the join itself is
// given next, so it is made zero once.
pub fn lent_joining(a: &[u8], b: &[u8], k: u64, bytes: u64, out: &mut [u8]) -> u32 {
    let n = out.len().min(bytes as usize);
    join(a, b, k, &mut out[..n]).refusal
}

// Reconciling into an addendum.
fn reconcile<R: Print>(
    case: &Case<'_, R>,
    s: &State,
    out: &mut [u8],
) -> Result<Reconciled, Refusal> {
    let time = case.number_in(5, 1).cast_signed();
    s.reconcile(case.section(2), case.section(3), time, out)
}

// The refusal of reconciling with lent room.
fn lent_reconciling<R: Print>(case: &Case<'_, R>, s: &State) -> u32 {
    let mut out = [0; 4096];
    let n = out.len().min(case.number_in(5, 6) as usize);
    cases::refusal(reconcile(case, s, &mut out[..n]))
}

// Sections 19 to 21. A joined book that is refused leaves zeros, and so differs in section 20.
fn recovered<R: Print>(case: &mut Case<'_, R>, s: &State, joined: &[u8]) -> io::Result<()> {
    let (_, again) = recover::recover(joined, logs::now(case));
    let n = s.equal(case.section(1), &again, joined);
    case.numbers(Sort::Equalities, 19, &[n.refusal.into(), n.a])?;
    case.bytes(Sort::Marks, 20, again.marks())?;
    case.bytes(Sort::Orders, 21, again.orders())
}

// Sections 18 to 21; the last is 18 where the join is refused.
fn joined<R: Print>(case: &mut Case<'_, R>, s: &State, addendum: &[u8]) -> io::Result<()> {
    let mut out = [0; 65536];
    let book = case.section(1);
    let k = case.number_in(5, 2);
    let lent = lent_joining(book, addendum, k, case.number_in(5, 7), &mut out);
    let n = join(book, addendum, k, &mut out);
    case.numbers(Sort::Joins, 18, &[n.refusal.into(), lent.into(), n.a])?;
    if n.refusal == 0 {
        recovered(case, s, wire::part(&out, 0, n.a as usize))?;
    }
    Ok(())
}

// Sections 16 to 21; the last is 16 where reconciling is refused.
pub fn replay<R: Print>(case: &mut Case<'_, R>, s: &State) -> io::Result<()> {
    let mut out = [0; 4096];
    let r = reconcile(case, s, &mut out);
    let lent = lent_reconciling(case, s).into();
    match r {
        Ok(n) => {
            case.numbers(
                Sort::Reconcilings,
                16,
                &[0, lent, n.entries.into(), n.unreached.into()],
            )?;
            let addendum = wire::part(&out, 0, n.length);
            case.bytes(Sort::Addenda, 17, addendum)?;
            joined(case, s, addendum)
        }
        Err(refusal) => {
            let refusal = u32::from(refusal).into();
            case.numbers(Sort::Reconcilings, 16, &[refusal, lent, 0, 0])
        }
    }
}
