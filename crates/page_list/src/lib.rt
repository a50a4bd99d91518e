// The list of pages, written from the line table (#110).
#![tactic(auto)]

pub mod counting;
pub mod writing;
