// The events of a line, drawn into a lent buffer (rule 13).
#![tactic(auto)]

pub mod cuts;
mod inked;
mod lone;
mod marks;
pub mod pass;
mod past;
pub mod plain;
mod resumed;
mod striding;
mod taken;
mod waiting;
