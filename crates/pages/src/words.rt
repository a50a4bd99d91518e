// The words of the command line: how many lines a page has, and how the pages are to be printed.
use console::digits::decimal_in;
use console::words::{word, word_count};
use std::env::Env;

// How pages are printed: as a list of numbers, or by their text.
#[derive(Clone, Copy)]
pub enum Form {
    Numbers,
    Text,
}

// So many lines to a page, and how the pages are to be printed.
#[derive(Clone, Copy)]
pub struct Asked {
    pub lines: u32,
    pub form: Form,
}

// More words than the program knows.
const MOST_WORDS: usize = 4;

fn second_is_text(rt: &impl Env) -> bool {
    let mut bytes = [0u8; 16];
    let n = word(rt, 2, &mut bytes);
    bytes[..n] == b"text"[..]
}

// The number in the first word. A word that is missing or too long is read as an empty one, which has none.
fn first_number(rt: &impl Env) -> Option<u32> {
    let mut bytes = [0u8; 16];
    let n = word(rt, 1, &mut bytes);
    decimal_in(&bytes[..n], u32::MAX)
}

// What the words ask for, the program's name among them, if they say it.
pub fn read_words(rt: &impl Env) -> Option<Asked> {
    let lines = first_number(rt)?;
    let form = match word_count(rt, MOST_WORDS) {
        2 => Form::Numbers,
        3 if second_is_text(rt) => Form::Text,
        _ => return None,
    };
    Some(Asked { lines, form })
}
