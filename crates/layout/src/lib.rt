// The public calls that lay a text.
#![tactic(auto)]

pub mod checked;
pub mod drawn;
mod events;
pub mod fresh;
mod line;
mod seen;
