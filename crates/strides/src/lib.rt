// A space and a word at once: what measuring and drawing share, so that most words take no step of their own (rule 7 and rule 8).
#![tactic(auto)]

pub mod first;
pub mod going;
pub mod marks;
pub mod next;
pub mod strides;
pub mod waiting;
