// The support of an edge: the free bits that lead to it. No code: definitions and laws of counting over some of the bits of a number.
#![tactic(auto)]
