// Lists of orders and of positions, compared in order; lists of different lengths differ. No derive: the lists are lent bytes. One function for both would take
// the width and a closure, and its contract the closure's clauses, for two lines each.
ghost use Rattle.std.specs.Prelude.{◌≡◌};
ghost use Rattle.records.specs.Record.{orders_in, positions_in};
ghost use Rattle.state.specs.State.{same_order, same_position, same_lists};

use crate::orders;
use records::order::order_at;
use records::position::position_at;

pub fn same_orders(s: &[u8], t: &[u8], a: &[u8], b: &[u8]) -> bool
    ensures { result ≡ same_lists (same_order s.now t.now) (orders_in a.now) (orders_in b.now) }
{
    let n = a.len() / 64;
    n == b.len() / 64
        && (0..n).all(|i| orders::same_order(s, t, order_at(a, 64 * i), order_at(b, 64 * i)))
}

pub fn same_positions(a: &[u8], b: &[u8]) -> bool
    ensures { result ≡ same_lists same_position (positions_in a.now) (positions_in b.now) }
{
    let n = a.len() / 32;
    n == b.len() / 32
        && (0..n).all(|i| orders::same_position(position_at(a, 32 * i), position_at(b, 32 * i)))
}
