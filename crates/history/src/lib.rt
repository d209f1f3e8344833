// Theorems about histories of calls of two users. This crate has no code: the theorems stand in proofs/.
#![tactic(auto)]
