// The rules of the tables by which crate tables lexes: definitions and their laws, no code that runs.
#![tactic(auto)]
