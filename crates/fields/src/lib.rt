// The fields of a text, decimals and hex digits, each ended by a byte: what is written and read of them, and what readers and writers
// answer, stands in specs/, the laws that they share in proofs/. `field_bytes`, `decimals` and `hexadecimals` have the functions.
#![tactic(auto)]
