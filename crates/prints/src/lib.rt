// The events of one token (rule 8, rule 9 and rule 13).
#![tactic(auto)]

pub mod grown;
pub mod tokens;
pub mod words;
