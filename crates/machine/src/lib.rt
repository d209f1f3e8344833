// Machines whose reachable states are found layer by layer. This crate has no code: definitions stand in specs/, theorems in proofs/.
#![tactic(auto)]
