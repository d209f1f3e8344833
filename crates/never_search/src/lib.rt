// Definitions and theorems of the search at a depth, which says that a trigger can never fire. It has no functions.
#![tactic(auto)]
