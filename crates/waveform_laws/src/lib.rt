// Theorems about waveforms, and their examples as one theorem: proofs/. This crate has no code.
#![tactic(auto)]
