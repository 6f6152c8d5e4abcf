// What recovery makes of a sound book: its orders and positions pass the tests that later calls put to them, read back as they were, and do not depend
// on the caller's time (`proofs/Recovered.antt`, `proofs/StateSound.antt`). It has no function.
#![tactic(auto)]
