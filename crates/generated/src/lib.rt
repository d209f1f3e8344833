// Circuits made from a seed and counts: definitions in specs/, theorems in proofs/. No code.
#![tactic(auto)]
