// The records of recovery in lent bytes: orders of 64 bytes and positions of 32, read, written, tested and searched.
//
// `specs/Record.antt` has their layout, `specs/Search.antt` what is asked of them. Nothing that is `pub` here has a `requires`: reading past
// the end gives zeros, and what would be written past the end is dropped.
#![tactic(auto)]

mod flags;
pub mod order;
pub mod position;
pub mod search;
pub mod words;
