// The action to take after a crash: a question put to the finished marks and orders. The marks go in by value. Refusal 2.
ghost use Rattle.std.specs.Prelude.{◌≡◌};
ghost use Rattle.wire.specs.Table.{records};
ghost use Rattle.records.specs.Record.{order_of};
ghost use Rattle.marks.specs.Action.{action_of, queried_action, lent_action};

use crate::Marks;
use wire::refusal::Refusal;

#[derive(Clone, Copy, PartialEq, Eq)]
pub enum RecoveryAction {
    Restart,
    Resume,
    ManualReview,
}

impl Marks {
    // Here and below the orders are the first `count` records: recovery fills a longer buffer, which C lends.
    // The last questions: a query that is open is safe to repeat, an order that is not filled is not.
    fn queried_action(self, orders: &[u8], count: u32) -> RecoveryAction
        ensures { result ≡ queried_action self (records order_of 64 count orders.now) }
    {
        if self.positions.is_open() {
            return RecoveryAction::Restart;
        }
        if self.quotes.is_open() {
            return RecoveryAction::Restart;
        }
        if self.account.is_open() {
            return RecoveryAction::Restart;
        }
        if records::search::any_unfilled(orders, count) {
            return RecoveryAction::ManualReview;
        }
        RecoveryAction::Restart
    }

    // The action by the marks and the first `count` orders.
    pub fn determine_recovery_action(self, orders: &[u8], count: u32) -> RecoveryAction
        ensures { result ≡ action_of self (records order_of 64 count orders.now) }
    {
        if self.completed {
            return RecoveryAction::Restart;
        }
        if self.cancelfailed {
            return RecoveryAction::ManualReview;
        }
        if self.cancel.is_open() {
            return RecoveryAction::ManualReview;
        }
        if count == 0 {
            return RecoveryAction::Restart;
        }
        if records::search::any_intent(orders, count) {
            return RecoveryAction::Resume;
        }
        self.queried_action(orders, count)
    }

    // Entry. The action by the marks and a slice of orders. Refusal 2 where the slice is not made of order records, or of more than a u32 counts.
    pub fn recovery_action(self, orders: &[u8]) -> Result<RecoveryAction, Refusal>
        ensures { result ≡ lent_action self orders.now }
    {
        if 0x40_0000_0000 <= orders.len() {
            return Err(Refusal::Broken);
        }
        records::order::check_orders(orders)?;
        Ok(self.determine_recovery_action(orders, (orders.len() / 64) as u32))
    }
}
