// In the words that parsing leaves of any text next siblings rise, and every node but File is linked once and tells its parent: definitions
// and laws, no code that runs.
#![tactic(auto)]
