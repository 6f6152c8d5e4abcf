// The answers of `state`, `compare` and `intents` to lent marks, over the writers of `answers`.
//
// Lent marks are a record of 176 bytes (crate `marks_record`); one that is none is refused by 2, after 1 of what is lent beside it.
#![tactic(auto)]

ghost use Rattle.std.specs.Prelude.{◌≡◌};
ghost use Rattle.marks_record.specs.MarksRecord.{marks_ok};
ghost use Rattle.answers.specs.Answer.{numbers};
ghost use Rattle.marks_answers.specs.LentMarks.{marks_first};

pub mod intents_answer;
pub mod state_answer;

use answers::Numbers;
use wire::refusal::Refusal;

// Whether lent bytes are a record of marks.
pub fn marks_ok(marks: &[u8]) -> bool
    ensures { result ≡ marks_ok marks.now }
{
    marks_record::check(marks).is_ok()
}

// The numbers where lent marks are no record: refusal 2, after 1 of what is lent beside them.
pub fn broken_marks(beside: Result<(), Refusal>) -> Numbers
    ensures { result ≡ numbers (marks_first (Err Refusal.Broken) beside (0, 0, 0)) }
{
    Numbers {
        refusal: answers::refused(wire::refusal::both(beside, Err(Refusal::Broken))),
        a: 0,
        b: 0,
    }
}
