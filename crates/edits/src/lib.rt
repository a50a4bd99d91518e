// What an edit is held to before anything is laid again, and whether an old line is met.
#![tactic(auto)]

pub mod checking;
pub mod fitting;
pub mod meeting;
