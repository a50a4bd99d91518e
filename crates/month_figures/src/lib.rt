// The figures of a month of clues (#112), counted and added. No line is laid here.
#![tactic(auto)]

pub mod adding;
pub mod counted;
