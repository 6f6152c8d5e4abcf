// The wrong turns: what the entries give where a wrong turn would give something else.
use crate::{example, refusals, tell};
use recovery::recover::reconstruct_state;
use std::io;

// Recovery of one order: the refusal's number, and the answer's bytes.
fn recover_one(e: &[u8], orders: &mut [u8; 64]) -> (u32, [u8; 200]) {
    let mut positions = [0; 32];
    let mut answer = [0; 200];
    let r = reconstruct_state(example::first(e), 0, orders, &mut positions);
    let refusal = recovery_answers::give_recovery(r, &mut answer);
    (refusal, answer)
}

// Recovery of one order: refusal, ibkr_id, and whether it is filled.
pub fn fill(rt: &impl Print, e: &[u8]) -> io::Result<()> {
    let mut orders = [0; 64];
    let (refusal, _) = recover_one(e, &mut orders);
    let ibkr = wire::u32_at(&orders, 12);
    let filled = wire::u8_at(&orders, 9) / 2 % 2;
    tell::numbers(
        rt,
        example::label(e),
        &[refusal.into(), ibkr.into(), filled.into()],
    )
}

// Recovery: refusal, action, which is 0 for Restart, 1 for Resume and 2 for ManualReview.
pub fn restarted(rt: &impl Print, e: &[u8]) -> io::Result<()> {
    let mut orders = [0; 64];
    let (refusal, answer) = recover_one(e, &mut orders);
    tell::value(rt, example::label(e), refusal, wire::u64_at(&answer, 192))
}

// The entry `i` of an addendum of two: its symbol from the text, its number and its ibkr_id.
fn entry(rt: &impl Print, addendum: &[u8], i: u8) -> io::Result<()> {
    let at = 24 + 240 * (i as usize);
    let first = wire::u32_at(addendum, at + 40) as usize;
    let len = wire::u32_at(addendum, at + 44) as usize;
    let number = wire::u64_at(addendum, at + 16);
    let ibkr = wire::u64_at(addendum, at + 120);
    print!(rt; "entry (symbol, number, ibkr_id): ")?;
    rt.write_all(wire::part(addendum, 504 + first, len))?;
    println!(rt; " {number} {ibkr}")
}

// Reconciling of two intents: refusal, entries, unreached, and the entries.
pub fn symbols(rt: &impl Print, e: &[u8]) -> io::Result<()> {
    let mut addendum = [0; 1024];
    let mut answer = [0; 24];
    let r = refusals::reconcile(e, &mut addendum);
    let refusal = marks_answers::intents_answer::give_reconciling(r, &mut answer);
    let entries = wire::u64_at(&answer, 0);
    let unreached = wire::u64_at(&answer, 8);
    tell::numbers(rt, example::label(e), &[refusal.into(), entries, unreached])?;
    entry(rt, &addendum, 0)?;
    entry(rt, &addendum, 1)
}
