// Tests that come before a circuit is asked for. This crate has no code: the definition stands in specs/, its laws in proofs/.
#![tactic(auto)]
