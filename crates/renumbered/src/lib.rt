// The renumbered circuit, its text in binary form and the contract of the binary writer: definitions in specs/, a worked example in
// proofs/. This crate has no code.
#![tactic(auto)]
