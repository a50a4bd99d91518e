// What the programs share: a file read to its end, bytes moved to a buffer's front, a number in a word, the words of the command line,
// what they say, and the settings that they lay by.
#![tactic(auto)]

pub mod buffers;
pub mod digits;
pub mod front;
pub mod input;
pub mod sample;
pub mod saying;
pub mod words;
