// Rule 11: the height of a text and the y of a line, from the line table.
#![tactic(auto)]

pub mod height;
pub mod spacing;
pub mod vertical;
pub mod ys;
