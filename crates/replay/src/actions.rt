// Kind 4, section 12: the action of the first lent state.
use recorded::case::Case;
use recorded::saved::State;
use recorded::states;
use recorded::tally::Sort;
use std::io;

// Section 12, and those after it.
pub fn replay<R: Print>(case: &mut Case<'_, R>) -> io::Result<()> {
    let s = State::lent(case, 2);
    let n = recovery_answers::lent_action(s.marks(), s.orders());
    case.numbers(Sort::Actions, 12, &[n.refusal.into(), n.a])?;
    states::replay(case, &s)
}
