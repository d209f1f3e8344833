// The search as a list of stages. This crate has no code: definitions stand in specs/, theorems in proofs/.
#![tactic(auto)]
