// Machines asked backward: from which states a hit can still come, and the walk to the first one. This crate has no code: definitions
// stand in specs/, theorems in proofs/.
#![tactic(auto)]
