// The round trip between a circuit, its text and its words. The theorems stand in proofs/. This crate has no code.
#![tactic(auto)]
