// Theorems about the renumbered circuit and its text in binary form: load accepts the text and gives the circuit, which has the same runs
// and hits as the first, and the text of that circuit is the same. This crate has no code.
#![tactic(auto)]
