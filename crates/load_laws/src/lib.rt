// Laws of what load answers and leaves: proofs/. This crate has no code.
#![tactic(auto)]
