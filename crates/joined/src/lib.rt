// The joined circuit and the contract of join: definitions in specs/, a worked example in proofs/. This crate has no code.
#![tactic(auto)]
