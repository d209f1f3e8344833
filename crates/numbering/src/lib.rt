// Laws of circuits whose variables are numbered in the order of the binary form, and the definition of its text. No code.
#![tactic(auto)]
