// Held value, which document 01 adds: the sum of quantity × price over held symbols, by the arrays of `drift`.
//
// Entry: `held_value`. Refused are a list of more than 1,024 rows (1), a list that is not made of rows with right symbol fields (2), and a product or a
// total outside i64 (12).
#![tactic(auto)]

ghost use Rattle.std.specs.Prelude.{◌≡◌, [], map, ◌≤◌, cond, length};
ghost use Rattle.drift.specs.Entry.{fits64};
ghost use Rattle.drift.specs.Rows.{held_in, targets_in, prices_in};
ghost use Rattle.drift.specs.Report.{lines_of};
ghost use Rattle.held.specs.Value.{worth, worth_of, value_of, held_of};
ghost use Rattle.drift.specs.Code.{lines_at, whole_of, Blank};

use drift::rows::Lists;
use drift::table::Table;
use wire::refusal::Refusal;

// What a symbol adds, unless it is outside i64.
fn worth_of(quantity: i64, price: i64) -> Option<i64>
    ensures { result ≡ whole_of (worth_of quantity price) }
{
    if 0 < price {
        quantity.checked_mul(price)
    } else {
        Some(0)
    }
}

// A total, unless it is outside i64.
fn total_of(sum: i128) -> Result<i64, Refusal>
    ensures { result ≡ cond (fits64 sum) (Ok sum) (Err Refusal.Overflow) }
{
    i64::try_from(sum).map_err(|_| Refusal::Overflow)
}

// The total of the lines in the arrays. It is summed in 128 bits, so that only the total is held to i64. Two arrays, since
// those are what a drift table has.
fn sum_worth(quantities: &[u64], costs: &[u64]) -> Result<i64, Refusal>
    requires few { length quantities.now ≤ 2048 }
    requires paired { length quantities.now ≤ length costs.now }
    ensures { result ≡ value_of (map worth (lines_at [] quantities.now [] costs.now (length quantities.now))) }
{
    let mut sum = 0i128;
    for k in 0..quantities.len() {
        let worth = worth_of(quantities[k].cast_signed(), costs[k].cast_signed());
        sum += i128::from(worth.ok_or(Refusal::Overflow)?);
    }
    total_of(sum)
}

// The value of lists, by a table with no symbol yet.
fn value_in<const N: usize>(table: &mut Table<N>, lists: Lists) -> Result<i64, Refusal>
    requires { Blank lists.positions.now lists.targets.now table.old.keys table.old.quantities table.old.weights table.old.costs }
    ensures { result ≡ value_of (map worth (lines_of (held_in lists.entry.positions.now) (targets_in lists.entry.targets.now) (prices_in lists.entry.prices.now))) }
{
    let n = table.fill(lists);
    sum_worth(&table.quantities[..n], &table.costs[..n])
}

// The value of lists that target nothing. Short lists are worked on in a short table, which takes little to clear.
fn value(lists: Lists) -> Result<i64, Refusal>
    requires { lists.targets.now ≡ [] }
    ensures { result ≡ value_of (map worth (lines_of (held_in lists.entry.positions.now) (targets_in lists.entry.targets.now) (prices_in lists.entry.prices.now))) }
{
    if lists.positions.len() / 32 <= 32 {
        value_in(&mut Table::<32>::new(), lists)
    } else {
        value_in(&mut Table::<1024>::new(), lists)
    }
}

// Entry. The sum of quantity × price over held symbols, prices above 0 only; the last record and the last price of a symbol count. Each product and the
// total must be an i64 (12), no running sum.
pub fn held_value(positions: &[u8], prices: &[u8]) -> Result<i64, Refusal>
    ensures { result ≡ held_of positions.now prices.now }
{
    value(Lists::checked(positions, &[], prices)?)
}
