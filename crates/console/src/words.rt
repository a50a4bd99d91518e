// The words of the command line, as bytes.
ghost use Rattle.std.specs.Prelude.{◌≤◌, length};

use std::env::{Env, FillError};

// Puts a word to the buffer's front, and answers its length. A word that is missing or too long is read as an empty one.
pub fn word(rt: &impl Env, at: usize, buffer: &mut [u8]) -> usize
    ensures { result ≤ length buffer.new }
{
    rt.arg(at, buffer).unwrap_or(0)
}

fn is_missing(rt: &impl Env, at: usize) -> bool {
    let mut none = [0u8; 1];
    matches!(rt.arg(at, &mut none), Err(FillError::NotPresent))
}

// How many words there are, the program's name among them; no more than so many are counted.
pub fn word_count(rt: &impl Env, most: usize) -> usize
    ensures { result ≤ most }
{
    for at in 0..most {
        if is_missing(rt, at) {
            return at;
        }
    }
    most
}
