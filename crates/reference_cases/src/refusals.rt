// The entries of the table of refusals.
use crate::{example, tell};
use intents::Reconciled;
use recovery::recover::reconstruct_state;
use std::io;
use wire::refusal::Refusal;

// The verdict on a book: refusal, event, checkpoint.
pub fn verdict(rt: &impl Print, e: &[u8]) -> io::Result<()> {
    let v = audit::validate::validate_checkpoints_from_parsed(example::first(e));
    let n = log_answers::verdict_numbers(v);
    tell::numbers(rt, example::label(e), &[n.refusal.into(), n.a, n.b])
}

// Recovery with as many bytes for orders as the example's number.
pub fn recovered(rt: &impl Print, e: &[u8]) -> io::Result<()> {
    let mut orders = [0; 128];
    let mut positions = [0; 32];
    let mut answer = [0; 200];
    let room = orders.len().min(wire::u8_at(e, 32) as usize);
    let r = reconstruct_state(example::first(e), 0, &mut orders[..room], &mut positions);
    let refusal = recovery_answers::give_recovery(r, &mut answer);
    tell::refusal(rt, example::label(e), refusal)
}

// Reconciling of what is recovered with the sheet, two queries answered.
pub fn reconcile(e: &[u8], addendum: &mut [u8]) -> Result<Reconciled, Refusal> {
    let mut orders = [0; 128];
    let mut positions = [0; 32];
    let r = reconstruct_state(example::first(e), 0, &mut orders, &mut positions)?;
    let lent = wire::part(&orders, 0, 64 * (r.orders as usize));
    intents::reconcile_incomplete_intents(r.marks, lent, example::second(e), &[0; 2], 0, addendum)
}

pub fn reconciled(rt: &impl Print, e: &[u8]) -> io::Result<()> {
    let mut addendum = [0; 1024];
    let mut answer = [0; 24];
    let r = reconcile(e, &mut addendum);
    let refusal = marks_answers::intents_answer::give_reconciling(r, &mut answer);
    tell::refusal(rt, example::label(e), refusal)
}

// The conversion, with scale 1, of the f64 that has the example's number as its bits: refusal, value as 64 bits.
pub fn fixed(rt: &impl Print, e: &[u8]) -> io::Result<()> {
    let mut answer = [0; 8];
    let x = float::bits::from_bits(wire::u64_at(e, 32));
    let r = types::fixed::f64_to_fixed_checked(x, 1.0);
    let refusal = answers::fixed_answer::give_fixed(r, &mut answer);
    tell::value(rt, example::label(e), refusal, wire::u64_of(&answer))
}

// Drift of no holdings from these targets.
pub fn weight(rt: &impl Print, e: &[u8]) -> io::Result<()> {
    let mut entries = [0; 64];
    let d = drift::report::reconcile(&[], example::first(e), &[], 0, &mut entries);
    let n = drift_answers::drift_numbers(d);
    tell::refusal(rt, example::label(e), n.refusal)
}

// The held value of positions at prices: refusal, value as 64 bits.
pub fn held(rt: &impl Print, e: &[u8]) -> io::Result<()> {
    let h = held::held_value(example::first(e), example::second(e));
    let n = drift_answers::held_numbers(h);
    tell::value(rt, example::label(e), n.refusal, n.a)
}

// The join of a book and its own first events, as many as the example's number.
pub fn joined(rt: &impl Print, e: &[u8]) -> io::Result<()> {
    let mut out = [0; 64];
    let book = example::first(e);
    let j = join::join(book, book, wire::u64_at(e, 32), &mut out);
    let n = round_answers::joining_numbers(j);
    tell::refusal(rt, example::label(e), n.refusal)
}
