// An attempt at the frames by sets of states, and the stage that tries orders of the latches in turn. This crate has no code: definitions
// stand in specs/, theorems in proofs/.
#![tactic(auto)]
