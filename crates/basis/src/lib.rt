// What the proofs of all crates share: the library's names in one place, and laws of tests and lists. It has no code.
#![tactic(auto)]
