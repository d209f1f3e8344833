// Pins: inputs of a circuit that a user holds at a value. This crate has no code: definitions stand in specs/, theorems in proofs/.
#![tactic(auto)]
