// Reading as a whole, lexing and then parsing: a definition; the code is `read` of crate plank.
#![tactic(auto)]
