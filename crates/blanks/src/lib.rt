// Spaces, tabs and soft hyphens with their lookahead, and the step of any token: the crate's line_iter (rule 5, rule 7, rule 8 and rule 9).
// That a text is short is a clause, and not a type: see parser.
#![tactic(auto)]

pub mod ahead;
pub mod hyphens;
pub mod line_iter;
pub mod spaces;
pub mod tabs;
pub mod token;
