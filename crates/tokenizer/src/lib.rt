// The call that lists the tokens of a text, and a reader of them (rule 3).
// That a text is short is a clause, and not a type: see parser.
#![tactic(auto)]

pub mod count;
pub mod reader;
pub mod tokenize;
pub mod write;
