// That the definition's parser and the grammar agree: laws, no code that runs.
#![tactic(auto)]
