// The bytes of a bench, and its calls. This crate has no code: definitions stand in specs/, laws in proofs/.
#![tactic(auto)]
