// What a step is, what a line begins with, what a word does to it, and how it ends (rule 7, rule 8 and rule 9).
// That a text is short is a clause, and not a type: see parser.
#![tactic(auto)]

pub mod ending;
pub mod first;
pub mod foreseen;
pub mod step;
pub mod words;
