// Line tables and events as numbers: read, written, and lines moved by an edit.
#![tactic(auto)]

pub mod edited;
pub mod entries;
pub mod events;
pub mod moving;
pub mod search;
