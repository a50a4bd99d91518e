// A space and a word read together, the words that a line begins with, and lines of plain words (rule 2).
// That a text is short is a clause, and not a type: see parser.
#![tactic(auto)]

pub mod pair;
pub mod plain_line;
pub mod stretch;
pub mod told;
pub mod within;
pub mod word_end;
