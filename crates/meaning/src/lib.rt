// Theorems about the definitions of document 01 stand in proofs/. This crate has no code.
#![tactic(auto)]
