// Drift (`reconcile.rs`): what is held against what is wanted, in lent bytes. Held value is the crate `held`.
//
// Entry: `report::reconcile`. Refused are a list of more than 1,024 rows (1), a list that is not made of rows with right symbol fields (2), a target that
// is not finite or beyond ±1,000 (11), a product or a share difference outside i64 (12), and a buffer that cannot take all entries (3).
//
// The symbols are kept in order in an array, as numbers that compare as the symbols do; what was last said of each stands beside it.
#![tactic(auto)]

pub mod entry;
pub mod report;
pub mod rows;
pub mod table;
pub mod words;
