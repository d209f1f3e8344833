// Definitions of witnesses that hold `x` stand in specs/, laws of completions and of widening in proofs/. This crate has no code.
#![tactic(auto)]
