// Sample books and sheets: `specs/` gives their bytes from what they hold, for the examples of other crates. It has no function.
#![tactic(auto)]
