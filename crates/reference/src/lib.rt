// Document 01's reference sequence, M1 to M12: a list with one test, `specs/Reference.antt`, proved in `proofs/Reached.antt`. It has no function.
#![tactic(auto)]
