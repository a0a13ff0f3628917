// The tree that the words of reading hold: a definition, no code that runs.
#![tactic(auto)]
