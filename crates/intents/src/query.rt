// The queries for one intent, and the broker's order that an answer chooses.
ghost use Rattle.std.specs.Prelude.{◌≡◌, drop};
ghost use Rattle.records.specs.Record.{order_of};
ghost use Rattle.sheet.specs.Sheet.{sheet_orders};
ghost use Rattle.intents.specs.Intents.{query, max_retries, reconcile_order_intent, chosen};
ghost use Rattle.intents.specs.Turns.{queried_at, Turned};

use types::order::OrderId;

// Whether a query was answered, and the place after the queries taken, which there is either way: an Option would lose it where none was answered.
#[derive(Clone, Copy)]
pub struct Asked {
    pub answered: bool,
    pub next: usize,
}

// What came of an order: it is an intent whose query was answered or was not, with the place of the next query; or it is no intent.
#[derive(Clone, Copy)]
pub enum Turn {
    Reached(usize),
    Missed(usize),
    Other,
}

// Up to five queries from `at` on.
fn ask(queries: &[u8], at: usize) -> Asked
    ensures { query max_retries (drop at queries.now) ≡ queried_at result queries.now }
{
    let asked = wire::part(queries, at, 5);
    match asked.iter().position(|q| *q == 0) {
        Some(i) => Asked {
            answered: true,
            next: at + i + 1,
        },
        None => Asked {
            answered: false,
            next: at + asked.len(),
        },
    }
}

// The same, where the broker may have failed to list its orders.
fn reconcile_order_intent(failed: bool, queries: &[u8], at: usize) -> Asked
    ensures { reconcile_order_intent failed (drop at queries.now) ≡ queried_at result queries.now }
{
    if failed {
        return Asked {
            answered: false,
            next: at,
        };
    }
    ask(queries, at)
}

// The sheet's first order with quantity remaining.
pub fn choose(sheet: &[u8]) -> Option<OrderId>
    ensures { result ≡ chosen (sheet_orders sheet.now) }
{
    let i = (0..sheet::order_count(sheet)).find(|&i| 0 < sheet::remaining_at(sheet, i))?;
    Some(sheet::order_id_at(sheet, i))
}

// What comes of the order at a place, where `place` is that of the next query.
pub fn turn_of(orders: &[u8], at: usize, failed: bool, queries: &[u8], place: usize) -> Turn
    ensures { Turned result failed (order_of (drop at orders.now)) queries.now place }
{
    if !records::search::intent_at(orders, at) {
        return Turn::Other;
    }
    let asked = reconcile_order_intent(failed, queries, place);
    if asked.answered {
        return Turn::Reached(asked.next);
    }
    Turn::Missed(asked.next)
}
