// Laying a text again after an edit.
#![tactic(auto)]

pub mod relay;
mod rest;
mod stop;
mod writing;
