// The look over a lent table: is it well formed (refusal 5), and which line does an edit affect first.
#![tactic(auto)]

pub mod affected;
mod in_step;
pub mod one_line;
mod plain;
mod runs;
mod skipping;
pub mod well_formed;
