// A recovered state in one buffer of 4,096 bytes: at 0 the marks, at 176 two u64, how many bytes of orders and of positions there are, at 192 a u64, the
// action, at 200 the orders, at 2,048 the positions.
ghost use Rattle.std.specs.Prelude.{◌≡◌, replicate};

use crate::case::Case;
use answers::Numbers;
use intents::Reconciled;
use marks_answers::{intents_answer, state_answer};
use wire::refusal::Refusal;

// One buffer, since the records of a case may overlap there, and what is saved last is what is read.
#[derive(Drop)]
pub struct State {
    pub bytes: [u8; 4096],
}

impl State {
    // No marks and no records.
    pub fn new() -> State
        ensures { result.bytes ≡ replicate 4096 0 }
    {
        State { bytes: [0; 4096] }
    }

    // The state whose marks, orders and positions are three sections of a case from this one on.
    pub fn lent<R: Print>(case: &Case<'_, R>, first: u8) -> State {
        let n = u32::from(first);
        let mut s = State::new();
        wire::copy(&mut s.bytes, 0, case.section(n));
        s.put_records(case.section(n + 1), case.section(n + 2));
        s
    }

    pub fn marks(&self) -> &[u8] {
        wire::part(&self.bytes, 0, 176)
    }

    pub fn orders(&self) -> &[u8] {
        wire::part(&self.bytes, 200, wire::u64_at(&self.bytes, 176) as usize)
    }

    pub fn positions(&self) -> &[u8] {
        wire::part(&self.bytes, 2048, wire::u64_at(&self.bytes, 184) as usize)
    }

    pub fn action(&self) -> u64 {
        wire::u64_at(&self.bytes, 192)
    }

    pub fn put_records(&mut self, orders: &[u8], positions: &[u8]) {
        wire::put_u64(&mut self.bytes, 176, orders.len() as u64);
        wire::put_u64(&mut self.bytes, 184, positions.len() as u64);
        wire::copy(&mut self.bytes, 200, orders);
        wire::copy(&mut self.bytes, 2048, positions);
    }

    // ---- the entries that take a state
    pub fn compare(&self, sheet: &[u8], report: &mut [u8]) -> Numbers {
        state_answer::lent_comparison(self.marks(), self.orders(), self.positions(), sheet, report)
    }

    pub fn reconcile(
        &self,
        sheet: &[u8],
        queries: &[u8],
        time: i64,
        addendum: &mut [u8],
    ) -> Result<Reconciled, Refusal> {
        intents_answer::lent_reconciling(
            self.marks(),
            self.orders(),
            sheet,
            queries,
            time,
            addendum,
        )
    }

    // Two states, each with its book.
    pub fn equal(&self, book: &[u8], other: &State, other_book: &[u8]) -> Numbers {
        state_answer::lent_equality(
            book,
            self.marks(),
            self.orders(),
            self.positions(),
            other_book,
            other.marks(),
            other.orders(),
            other.positions(),
        )
    }
}
