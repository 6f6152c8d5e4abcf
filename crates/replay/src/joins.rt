// Kind 5, a join. Inputs: book A 1, book B 2, numbers 3 (k, room for the joined book).
use crate::addenda;
use recorded::case::Case;
use recorded::tally::Sort;
use std::io;

// Sections 4 and 5.
pub fn replay<R: Print>(case: &mut Case<'_, R>) -> io::Result<()> {
    let mut out = [0; 65536];
    let (a, b) = (case.section(1), case.section(2));
    let k = case.number_in(3, 0);
    let lent = addenda::lent_joining(a, b, k, case.number_in(3, 1), &mut out);
    let n = addenda::join(a, b, k, &mut out);
    case.numbers(Sort::Joins, 4, &[n.refusal.into(), lent.into(), n.a])?;
    case.bytes(Sort::Joins, 5, wire::part(&out, 0, n.a as usize))
}
