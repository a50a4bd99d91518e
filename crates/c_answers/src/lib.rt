// What C gets of each answer that is more than a count: the value that goes with its number, and what else is handed out.
#![tactic(auto)]

pub mod drawn;
pub mod fitted;
pub mod placed;
pub mod read;
pub mod relaid;
