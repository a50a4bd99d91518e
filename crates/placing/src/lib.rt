// Where a line is placed, its entry, and the lines that need no pass (rule 6, rule 10 and rule 12).
// That a text is short is a clause, and not a type: see parser.
#![tactic(auto)]

pub mod alignment;
pub mod counting;
pub mod cut;
pub mod cuts;
pub mod entry;
mod known;
pub mod long_word;
pub mod plain;
pub mod quick;
pub mod taken;
pub mod told;
