// What views and walks give of the words that reading makes: definitions and laws, no code that runs.
#![tactic(auto)]
