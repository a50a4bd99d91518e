// The index of ys beside a line table: made, made again after an edit, and searched for the line under a y.
#![tactic(auto)]

pub mod finding;
mod halving;
pub mod making;
mod rising;
