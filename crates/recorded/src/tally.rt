// How many answers of each sort were compared.
ghost use Rattle.std.specs.Prelude.{◌≡◌, replicate};

use std::io;

// The sorts of answers, in the order of their counts.
#[derive(Clone, Copy)]
pub enum Sort {
    Cases,
    Verdicts,
    Highest,
    Windows,
    Replies,
    Recoveries,
    Marks,
    Orders,
    Positions,
    Comparisons,
    Reports,
    Actions,
    Reconcilings,
    Addenda,
    Joins,
    Equalities,
    Drifts,
    Entries,
    Held,
    Fixed,
    Cents,
    Casts,
    Disagreements,
}

// What a line calls each sort, in the same order. A `Display` would be a match of as many arms.
const LABELS: [&str; 23] = [
    "cases",
    "verdicts",
    "highest numbers",
    "windows",
    "replies",
    "recoveries",
    "marks",
    "orders",
    "positions",
    "comparisons",
    "reports",
    "actions",
    "reconcilings",
    "addenda",
    "joins",
    "equalities",
    "drifts",
    "drift entries",
    "held values",
    "conversions",
    "cents",
    "casts",
    "disagreements",
];

#[derive(Drop)]
pub struct Tally {
    pub counts: [u64; 23],
}

impl Tally {
    pub fn new() -> Tally
        ensures { result.counts ≡ replicate 23 0 }
    {
        Tally { counts: [0; 23] }
    }

    // How many of a sort there are.
    pub fn count(&self, sort: Sort) -> u64 {
        self.counts[sort as usize]
    }

    // One more of a sort.
    pub fn add(&mut self, sort: Sort) {
        let n = &mut self.counts[sort as usize];
        *n = n.saturating_add(1);
    }

    // All counts, a line each.
    pub fn print(&self, rt: &impl Print) -> io::Result<()> {
        for (label, n) in LABELS.iter().zip(&self.counts) {
            println!(rt; "{label:16}{n}")?;
        }
        Ok(())
    }
}
