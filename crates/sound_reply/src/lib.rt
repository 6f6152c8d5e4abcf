// What the desk replies to a sound book and a sound sheet: all lines, or refusal 3's where the report is too long, and never another refusal
// (`proofs/Answered.antt`); at whatever time it is asked (`proofs/Timeless.antt`). It has no function.
#![tactic(auto)]
