// The entries for C and Rust, by numbers and byte slices: an f64 goes by its bits, and an answer that is an enum by document 01's refusal number with the
// value in a lent slice. Nothing here has a `requires`. A slice is a pointer and a length.
#![tactic(auto)]

mod book_entries;
mod drift_entries;
mod float_entries;
mod recovery_entries;
mod reply_entries;
mod round_entries;
mod state_entries;
mod types_entries;
