// The pen, and a word printed by it into a lent buffer of events (rule 8 and rule 13).
#![tactic(auto)]

pub mod pen;
pub mod words;
