// All that is claimed, in one record: proofs/Correct.antt.
#![tactic(auto)]
