// A month of clues in numbers: the figures of each clue in each width, summed over a stream of clues.
#![tactic(auto)]

pub mod each;
pub mod feeds;
pub mod one;
pub mod stream;
pub mod tally;
