// The answers of `intents`, to lent marks.
ghost use Rattle.std.specs.Prelude.{◌≡◌, length, replicate};
ghost use Rattle.std.proofs.lemmas.List.Edits.{sets};
ghost use Rattle.intents.specs.Intents.{reconciling_number};
ghost use Rattle.answers.specs.Answer.{room_number, unless_short};
ghost use Rattle.marks_answers.specs.IntentsAnswer.{reconciled_bytes, reconciling_bytes, lent_reconciling, lent_addendum_out};

use intents::Reconciled;
use wire::refusal::Refusal;

// The 24 bytes of a reconciling's answer.
fn put_reconciled(d: &mut [u8], r: Reconciled)
    ensures { d.new ≡ sets d.old 0 (reconciled_bytes r) }
{
    wire::put_u64(d, 0, r.entries as u64);
    wire::put_u64(d, 8, r.unreached as u64);
    wire::put_u64(d, 16, r.length as u64);
}

// Writes what a reconciling gave into an answer that is all zero, as far as it has room, and returns the refusal's number. So does `put_recovery` for 200 bytes:
// one function for both would take the writer and what it promises as parameters.
fn put_reconciling(answer: &mut [u8], r: Result<Reconciled, Refusal>) -> u32
    requires { answer.old ≡ replicate (length answer.old) 0 }
    ensures { (result ≡ reconciling_number r) × (answer.new ≡ reconciling_bytes r (length answer.old)) }
{
    match r {
        Ok(x) => {
            put_reconciled(answer, x);
            0
        }
        Err(refusal) => refusal.into(),
    }
}

// Writes a reconciling's answer of 24 bytes and returns its number.
pub fn give_reconciling(r: Result<Reconciled, Refusal>, answer: &mut [u8]) -> u32
    ensures { (result ≡ room_number 24 (reconciling_number r) (length answer.old)) × (answer.new ≡ unless_short 24 (length answer.old) (length answer.old) (reconciling_bytes r (length answer.old))) }
{
    wire::clear(answer);
    let number = put_reconciling(answer, r);
    answers::within(answer, 24, number)
}

// Reconciling with lent marks into an addendum.
pub fn lent_reconciling(
    marks: &[u8],
    orders: &[u8],
    sheet: &[u8],
    queries: &[u8],
    time: i64,
    addendum: &mut [u8],
) -> Result<Reconciled, Refusal>
    ensures { (result ≡ lent_reconciling marks.now orders.now sheet.now queries.now time (length addendum.old)) × (addendum.new ≡ lent_addendum_out marks.now orders.now sheet.now queries.now time (length addendum.old)) }
{
    if !crate::marks_ok(marks) {
        wire::clear(addendum);
        sheet::check(sheet)?;
        return Err(Refusal::Broken);
    }
    let m = marks_record::marks_of(marks);
    intents::reconcile_incomplete_intents(m, orders, sheet, queries, time, addendum)
}
