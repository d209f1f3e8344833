// Theorems of joined circuits: proofs/. This crate has no code.
#![tactic(auto)]
