// A line for each frame: the opening, and one line of a text from any start (rule 10).
#![tactic(auto)]

pub mod frame;
pub mod opening;
pub mod place;
