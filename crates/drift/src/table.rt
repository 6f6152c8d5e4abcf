// What is known of each symbol.
ghost use Rattle.std.specs.Prelude.{◌≡◌, ◌≤◌, replicate};
ghost use Rattle.drift.specs.Rows.{held_in, targets_in, prices_in};
ghost use Rattle.drift.specs.Report.{lines_of};
ghost use Rattle.drift.specs.Code.{lines_at, Blank, Filled};

use crate::rows::{Lists, Rows};
use crate::words;

// The symbols' keys in order, and what was last said of each symbol in arrays beside them: a symbol that comes in moves the keys after it alone.
#[derive(Drop)]
pub struct Table<const N: usize> {
    pub keys: [u64; N],
    pub quantities: [u64; N],
    pub weights: [u64; N],
    pub costs: [u64; N],
    ghost small: { N ≤ 2048 },
}

impl<const N: usize> Table<N> {
    // No symbol.
    pub fn new() -> Table<N>
        requires { N ≤ 2048 }
        ensures no_key { result.keys ≡ replicate N 0 }
        ensures no_quantity { result.quantities ≡ replicate N 0 }
        ensures no_weight { result.weights ≡ replicate N 0 }
        ensures no_cost { result.costs ≡ replicate N 0 }
    {
        Table {
            keys: [0; N],
            quantities: [0; N],
            weights: [0; N],
            costs: [0; N],
        }
    }

    // The symbols that are held or targeted and what was last said of each; how many they are. That the table is blank before stays a clause, here, in `report`
    // and in `held::value_in`: after this it is not, so no field's fact could say it.
    pub fn fill(&mut self, lists: Lists) -> usize
        requires { Blank lists.positions.now lists.targets.now self.old.keys self.old.quantities self.old.weights self.old.costs }
        ensures room { result ≤ N }
        ensures filled { Filled result self.new.keys self.new.quantities self.new.weights self.new.costs }
        ensures lines { lines_at self.new.keys self.new.quantities self.new.weights self.new.costs result ≡ lines_of (held_in lists.entry.positions.now) (targets_in lists.entry.targets.now) (prices_in lists.entry.prices.now) }
    {
        let positions = Rows::new(lists.positions, 32);
        let targets = Rows::new(lists.targets, 24);
        let some = words::gather(positions, &mut self.keys, 0);
        let n = words::gather(targets, &mut self.keys, some);
        let keys = &self.keys[..n];
        words::last_values(positions, keys, &mut self.quantities);
        words::last_values(targets, keys, &mut self.weights);
        words::last_values(Rows::new(lists.prices, 24), keys, &mut self.costs);
        n
    }
}
