// Clauses that hold in every hit, and the floor: definitions in specs/, laws in proofs/. This crate has no code.
#![tactic(auto)]
