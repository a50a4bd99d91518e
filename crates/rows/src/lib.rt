// One line, measured, placed and drawn, and the lines of a text, one after the other (rule 8, rule 9 and rule 10).
#![tactic(auto)]

pub mod cuts;
pub mod drawer;
pub mod found;
pub mod hyphened;
pub mod line;
pub mod lines;
pub mod pass;
pub mod plain;
pub mod ragged;
pub mod resumed;
pub mod stand;
