// The answers of `recovery`, of `reader` and of the action of `marks`, over the writers of `answers`. Lent marks are refused as in `marks_answers`.
#![tactic(auto)]

ghost use Rattle.std.specs.Prelude.{◌≡◌, length, replicate};
ghost use Rattle.std.proofs.lemmas.List.Edits.{sets};
ghost use Rattle.recovery.specs.Recover.{recovery_number};
ghost use Rattle.answers.specs.Answer.{numbers, room_number, unless_short};
ghost use Rattle.recovery_answers.specs.RecoveryAnswer.{action_code, recovered_bytes, recovery_bytes, action_numbers, step_numbers, lent_action_numbers, lent_step_numbers, kept_if_short, record_if, record_after};

use answers::Numbers;
use marks::Marks;
use marks::action::RecoveryAction;
use recovery::recover::Recovered;
use wire::refusal::Refusal;

// By name, and no `as`: the numbers are those of C, and the order of the actions is another crate's.
fn action_code(a: RecoveryAction) -> u64
    ensures { result ≡ action_code a }
{
    match a {
        RecoveryAction::Restart => 0,
        RecoveryAction::Resume => 1,
        RecoveryAction::ManualReview => 2,
    }
}

// The 200 bytes of a recovery's answer.
fn put_recovered(d: &mut [u8], r: Recovered)
    ensures { d.new ≡ sets d.old 0 (recovered_bytes r) }
{
    marks_record::put_marks(d, r.marks);
    wire::put_u64(d, 176, r.orders as u64);
    wire::put_u64(d, 184, r.positions as u64);
    wire::put_u64(d, 192, action_code(r.action));
}

// Writes what a recovery gave into an answer that is all zero, as far as it has room, and returns the refusal's number. So does `put_reconciling` for 24 bytes:
// one function for both would take the writer and what it promises as parameters.
fn put_recovery(answer: &mut [u8], r: Result<Recovered, Refusal>) -> u32
    requires { answer.old ≡ replicate (length answer.old) 0 }
    ensures { (result ≡ recovery_number r) × (answer.new ≡ recovery_bytes r (length answer.old)) }
{
    match r {
        Ok(x) => {
            put_recovered(answer, x);
            0
        }
        Err(refusal) => refusal.into(),
    }
}

// Writes a recovery's answer of 200 bytes and returns its number.
pub fn give_recovery(r: Result<Recovered, Refusal>, answer: &mut [u8]) -> u32
    ensures { (result ≡ room_number 200 (recovery_number r) (length answer.old)) × (answer.new ≡ unless_short 200 (length answer.old) (length answer.old) (recovery_bytes r (length answer.old))) }
{
    wire::clear(answer);
    let number = put_recovery(answer, r);
    answers::within(answer, 200, number)
}

// Two arms, as each answer's numbers: `answers::Numbers` says why.
fn action_numbers(a: Result<RecoveryAction, Refusal>) -> Numbers
    ensures { result ≡ numbers (action_numbers a) }
{
    match a {
        Ok(action) => Numbers {
            refusal: 0,
            a: action_code(action),
            b: 0,
        },
        Err(refusal) => refusal.into(),
    }
}

// The action by lent marks.
pub fn lent_action(marks: &[u8], orders: &[u8]) -> Numbers
    ensures { result ≡ numbers (lent_action_numbers marks.now orders.now) }
{
    if !marks_answers::marks_ok(marks) {
        return marks_answers::broken_marks(Ok(()));
    }
    let m = marks_record::marks_of(marks);
    action_numbers(m.recovery_action(orders))
}

// Two arms, as each answer's numbers: `answers::Numbers` says why.
fn step_numbers(s: Result<bool, Refusal>) -> Numbers
    ensures { result ≡ numbers (step_numbers s) }
{
    match s {
        Ok(stepped) => Numbers {
            refusal: 0,
            a: u64::from(stepped),
            b: 0,
        },
        Err(refusal) => refusal.into(),
    }
}

// The record of the marks after a step with this answer, where an event was stepped and the answer has this room.
fn put_stepped(s: Result<bool, Refusal>, m: Marks, room: usize, marks: &mut [u8])
    requires { length marks.old ≡ 176 }
    ensures { marks.new ≡ kept_if_short room marks.old (record_if s marks.old m) }
{
    if room < 16 {
        return;
    }
    if s.unwrap_or(false) {
        marks_record::put_marks(marks, m);
    }
}

// A step over a lent record of marks, where the answer has this room.
pub fn lent_step(book: &[u8], next: u32, room: usize, marks: &mut [u8]) -> Numbers
    ensures { (result ≡ numbers (lent_step_numbers book.now next marks.old)) × (marks.new ≡ record_after book.now next room marks.old) }
{
    if !marks_answers::marks_ok(marks) {
        return marks_answers::broken_marks(book::layout::check(book));
    }
    let on = reader::step_on(book, next, marks_record::marks_of(marks));
    put_stepped(on.answer, on.marks, room, marks);
    step_numbers(on.answer)
}
