// `reconcile`: the entries of what is held against what is wanted, and the tracking error.
ghost use Rattle.std.specs.Prelude.{◌≡◌, max, length, replicate, OnOk};
ghost use Rattle.wire.specs.Table.{encoded, padded};
ghost use Rattle.drift.specs.Entry.{line_bytes};
ghost use Rattle.drift.specs.Rows.{held_in, targets_in, prices_in};
ghost use Rattle.drift.specs.Report.{lines_of, tracking_error, Reported, report_of, drift_of, drift_bytes};
ghost use Rattle.drift.specs.Code.{lines_at, Blank, Filled};

use crate::rows::Lists;
use crate::table::Table;
use crate::{entry, rows};
use wire::refusal::Refusal;

// How many entries there are, and the tracking error.
#[derive(Clone, Copy)]
pub struct Drifted {
    pub count: u32,
    pub tracking_error_pct: f64,
}

// The tracking error of n entries whose squared differences come to `sum`.
fn tracking_error(sum: f64, n: usize) -> f64
    ensures { result ≡ tracking_error sum n }
{
    float::root::sqrt(sum / float::bits::nearest_u64(n.max(1) as u64)) * 100.0
}

impl<const N: usize> Table<N> {
    // Writes the entry of each of the first n lines of the table into `entries`, which is zero before: n is what `fill` gave, and the table has a fixed size.
    // Where there is no room the entries are made all the same, since refusal 12 comes first.
    fn put_entries(&self, n: usize, equity: i64, entries: &mut [u8]) -> Result<Drifted, Refusal>
        requires filled { Filled n self.now.keys self.now.quantities self.now.weights self.now.costs }
        requires zero { entries.old ≡ replicate (length entries.old) 0 }
        ensures answer { result ≡ report_of (lines_at self.now.keys self.now.quantities self.now.weights self.now.costs n) equity (length entries.old) }
        ensures written { OnOk result (entries.new ≡ padded (length entries.old) (encoded (line_bytes equity) (lines_at self.now.keys self.now.quantities self.now.weights self.now.costs n))) }
    {
        let mut sum = 0.0;
        for k in 0..n {
            let quantity = self.quantities[k].cast_signed();
            let weight = float::bits::from_bits(self.weights[k]);
            let e = entry::entry_of(quantity, weight, self.costs[k].cast_signed(), equity)?;
            entry::put_entry(entries, 64 * k, self.keys[k], e);
            sum += e.diff_weight * e.diff_weight;
        }
        if entries.len() / 64 < n {
            return Err(Refusal::NoRoom);
        }
        Ok(Drifted {
            count: n as u32,
            tracking_error_pct: tracking_error(sum, n),
        })
    }

    // The entries of lists, by a table with no symbol yet. A refusal leaves zeros. That the entries are zero before stays a clause, here, above and below:
    // it is so at the call's begin alone, so a type that has it would own the buffer, and C lends that.
    fn report(&mut self, lists: Lists, equity: i64, entries: &mut [u8]) -> Result<Drifted, Refusal>
        requires blank { Blank lists.positions.now lists.targets.now self.old.keys self.old.quantities self.old.weights self.old.costs }
        requires zero { entries.old ≡ replicate (length entries.old) 0 }
        ensures { Reported result entries.new (lines_of (held_in lists.entry.positions.now) (targets_in lists.entry.targets.now) (prices_in lists.entry.prices.now)) equity (length entries.old) }
    {
        let n = self.fill(lists);
        let drift = self.put_entries(n, equity, entries);
        if drift.is_err() {
            wire::clear(entries);
        }
        drift
    }
}

// The entries of lists. Short lists are worked on in a short table, which takes little to clear. The choice stands here and in `held::value`, with other sizes
// and another answer: a closure for it could not take a table of either size.
fn report(lists: Lists, equity: i64, entries: &mut [u8]) -> Result<Drifted, Refusal>
    requires { entries.old ≡ replicate (length entries.old) 0 }
    ensures { Reported result entries.new (lines_of (held_in lists.entry.positions.now) (targets_in lists.entry.targets.now) (prices_in lists.entry.prices.now)) equity (length entries.old) }
{
    if lists.positions.len() / 32 + lists.targets.len() / 24 <= 32 {
        Table::<32>::new().report(lists, equity, entries)
    } else {
        Table::<2048>::new().report(lists, equity, entries)
    }
}

// Entry. The drift of what is held (records of 32 bytes) against targets and prices (rows of 24), at an equity in cents: an entry of 64 bytes for each
// symbol that is held or targeted, in symbol order, zeros after them, their count and the tracking error. A refusal leaves zeros.
pub fn reconcile(
    positions: &[u8],
    targets: &[u8],
    prices: &[u8],
    equity: i64,
    entries: &mut [u8],
) -> Result<Drifted, Refusal>
    ensures { (result ≡ drift_of positions.now targets.now prices.now equity (length entries.old)) × (entries.new ≡ drift_bytes positions.now targets.now prices.now equity (length entries.old)) }
{
    wire::clear(entries);
    let lists = Lists::checked(positions, targets, prices)?;
    if !rows::weights_ok(targets, targets.len() / 24) {
        return Err(Refusal::BadWeight);
    }
    report(lists, equity, entries)
}
