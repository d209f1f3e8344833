// What the operations answer to users, and histories of their calls. This crate has no code: definitions stand in specs/, laws in proofs/.
#![tactic(auto)]
