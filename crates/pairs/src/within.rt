// The word at a position, if it has no more characters than a line has room for: told by its bytes, or known (rule 2).
ghost use Rattle.std.specs.Prelude.{◌+◌, ◌-◌, ◌≤◌, ◌<◌, min, ◌≡◌, true, length, IfSome};
ghost use Rattle.parser.specs.Ascii.{plain_at};
ghost use Rattle.parser.specs.Letters.{GoesOn, Ends};
ghost use Rattle.pairs.specs.PlainWords.{PlainWord};
ghost use Rattle.pairs.specs.Within.{FirstWord, kept_within};

use crate::pair::space_len;
use parser::ascii::{ends_at, plain_at};
use parser::glue::glue_len;
use parser::letters::{first_len, skip_plain};
use parser::lexeme::Lexeme;
use parser::scan::{Scanned, scanned_at};
use utf8::long::long_len;

// Where so many bytes from a position on end, or where the text does.
fn limit_at(text: &[u8], from: usize, most: u32) -> usize
    requires { from ≤ 65535 }
    ensures { result ≡ min (from + most) (length text.now) }
{
    text.len().min(from + most as usize)
}

// The end of the plain word at a position, if it has no more characters than that. No more bytes are read.
pub fn word_within(text: &[u8], from: usize, most: u32) -> Option<usize>
    requires { (length text.now ≤ 65535) × (plain_at text.now from ≡ true) × (most ≤ 4096) }
    ensures { IfSome result (λ end. PlainWord text.now from end × (end - from ≤ most)) }
{
    if most == 0 {
        return None;
    }
    let limit = limit_at(text, from, most);
    let end = skip_plain(text, from + 1, limit);
    if ends_at(text, end) {
        return Some(end);
    }
    None
}

// A word that is known, if it has no more characters than that.
pub fn kept_within(x: Lexeme, most: u32) -> Option<Scanned>
    ensures { result ≡ kept_within x most }
{
    if most < x.chars.0 {
        return None;
    }
    Some(Scanned::from(x))
}

// Letters and what glues are skipped, but no more characters than that.
fn skip_upto(text: &[u8], from: usize, most: u32) -> Scanned
    requires { (length text.now ≤ 65535) × (from ≤ length text.now) }
    ensures { GoesOn text.now from result.end.0 result.chars.0 result.weight.0 × (result.chars.0 ≤ most) }
{
    let mut end = from;
    let mut chars: u32 = 0;
    let mut glues: u32 = 0;
    loop {
        let limit = limit_at(text, end, most - chars);
        let plain = skip_plain(text, end, limit);
        chars += (plain - end) as u32;
        if chars == most {
            return scanned_at(plain, chars, glues, 1);
        }
        if let Some(letter) = long_len(text, plain) {
            end = plain + letter;
            chars += 1;
            continue;
        }
        let Some(glue) = glue_len(text, plain) else {
            return scanned_at(plain, chars, glues, 1);
        };
        end = plain + glue;
        chars += 1;
        glues += 1;
    }
}

// How many bytes the character has that ends a word at a position, where it is told so. The text's end is as one byte.
fn ender_len(text: &[u8], at: usize) -> Option<usize>
    ensures { IfSome result (Ends text.now at) }
{
    if ends_at(text, at) {
        return Some(1);
    }
    space_len(text, at)
}

// The word at a position, if it is told by its bytes and has no more characters than that.
fn short_word(text: &[u8], at: usize, most: u32) -> Option<Scanned>
    requires { length text.now ≤ 65535 }
    ensures { IfSome result (FirstWord text.now at most) }
{
    if most == 0 {
        return None;
    }
    let first = first_len(text, at)?;
    let next = at + first;
    let more = most - 1;
    let rest = skip_upto(text, next, more);
    let end = rest.end.0 as usize;
    let n = 1 + rest.chars.0;
    let g = rest.weight.0;
    let ender = ender_len(text, end)?;
    Some(scanned_at(end, n, g, ender as u32))
}

// The same, where a plain word is looked for first.
pub fn first_within(text: &[u8], at: usize, most: u32) -> Option<Scanned>
    requires { (length text.now ≤ 65535) × (most ≤ 4096) }
    ensures { IfSome result (FirstWord text.now at most) }
{
    if plain_at(text, at) {
        if let Some(end) = word_within(text, at, most) {
            let n = (end - at) as u32;
            return Some(scanned_at(end, n, 0, 1));
        }
    }
    short_word(text, at, most)
}
