// The fields of a layout file, and the numbers in them (#104): written, read, and looked at one after the other (refusal 9, refusal 11).
#![tactic(auto)]

pub mod fields;
pub mod numbers;
pub mod order;
pub mod signs;
