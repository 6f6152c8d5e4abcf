// What the program `replay` needs to compare answers with recorded ones: the counts, a case with its sections, a state in one buffer, and the cases of
// drift, of conversions and of lent states. crates/replay/FORMAT.md has the list's layout.
#![tactic(auto)]

mod body;
pub mod case;
pub mod conversions;
pub mod drifts;
pub mod saved;
pub mod states;
pub mod tally;
