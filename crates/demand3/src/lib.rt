// What holds of every list of rounds on a log, however many fail or are cut: `specs/Demand3.antt` has the words and the conclusions, `specs/Claim.antt`
// the whole claim with its premises as one type. It is proved in
// `proofs/Theorem.antt`, with rounds computed from bytes in `proofs/RoundExamples.antt`. It has no function; `round` is in the crate `rounds`.
#![tactic(auto)]
