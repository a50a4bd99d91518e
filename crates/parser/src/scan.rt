// The longest word and the longest space run from an offset on, after their first character (rule 2).
ghost use Rattle.std.specs.Prelude.{◌≡◌, ◌≤◌, length};
ghost use Rattle.meaning.specs.Characters.{in_word, in_run};
ghost use Rattle.meaning.specs.Tokens.{ender};
ghost use Rattle.parser.specs.Lexing.{chars_from};
ghost use Rattle.parser.specs.Scanning.{glue_of, space_of, kept_of, scanned_at, scan_from};

use crate::ascii::{ends_at, plain_at, space_at};
use crate::characters::{in_run, in_word, space_of};
use crate::glue::{glue_len, glue_of};
use crate::letters::{Letters, skip_letters};
use crate::lexeme::Lexeme;
use crate::marks::{mark_at, mark_len};
use meaning::counts::{Chars, Offset};
use utf8::long::long_len;
use utf8::sequence::{Decoded, decode};

// Where a scan ended, the characters that it skipped, how many of them weigh, and the offset after the character that ended it.
#[derive(Clone, Copy)]
pub struct Scanned {
    pub end: Offset,
    pub chars: Chars,
    pub weight: Chars,
    pub reach: Offset,
}

// A word that is read, as a scan finds it: what weighs glues.
impl From<Lexeme> for Scanned {
    ghost from_gives = { λ x scanned. scanned ≡ kept_of x };

    fn from(x: Lexeme) -> Scanned {
        Scanned {
            end: x.end,
            chars: x.chars,
            weight: x.glues,
            reach: x.reach,
        }
    }
}

// Ended at an offset by a character of so many bytes.
pub fn scanned_at(at: usize, chars: u32, weight: u32, ender: u32) -> Scanned
    requires { (at ≤ 65535) × (ender ≤ 4) }
    ensures { result ≡ scanned_at at chars weight ender }
{
    Scanned {
        end: Offset(at as u32),
        chars: Chars(chars),
        weight: Chars(weight),
        reach: Offset(at as u32 + ender),
    }
}

// Bytes of the character at an offset, which ends what stands before it. The text's end counts as one.
pub fn ender_at(text: &[u8], at: usize) -> u32
    ensures { result ≡ ender (chars_from text.now at) }
{
    match decode(text, at) {
        Decoded::Char { cp: _, len } => len,
        Decoded::Bad | Decoded::End => 1,
    }
}

// The rest of a word whose first character weighs so much.
pub fn scan_word(text: &[u8], from: usize, first: u32) -> Scanned
    requires { (length text.now ≤ 65535) × (from ≤ length text.now) × (first ≤ 1) }
    ensures { result ≡ scan_from in_word glue_of from 1 first (chars_from text.now from) }
{
    let mut at = from;
    let mut chars: u32 = 1;
    let mut weight = first;
    loop {
        let Letters { end, chars: more } = skip_letters(text, at);
        let skipped = chars + more;
        if ends_at(text, end) {
            return scanned_at(end, skipped, weight, 1);
        }
        if let Some(glue) = glue_len(text, end) {
            weight += 1;
            chars = skipped + 1;
            at = end + glue;
            continue;
        }
        if let Some(mark) = mark_at(text, end) {
            return scanned_at(end, skipped, weight, mark_len(mark) as u32);
        }
        match decode(text, end) {
            Decoded::Char { cp, len } => {
                if !in_word(cp) {
                    return scanned_at(end, skipped, weight, len);
                }
                weight += glue_of(cp);
                chars = skipped + 1;
                at = end + len as usize;
            }
            Decoded::Bad | Decoded::End => {
                return scanned_at(end, skipped, weight, 1);
            }
        }
    }
}

// The rest of a space run whose first character counts.
pub fn scan_run(text: &[u8], from: usize) -> Scanned
    requires { (length text.now ≤ 65535) × (from ≤ length text.now) }
    ensures { result ≡ scan_from in_run space_of from 1 1 (chars_from text.now from) }
{
    let mut at = from;
    let mut chars: u32 = 1;
    let mut weight: u32 = 1;
    loop {
        if plain_at(text, at) {
            return scanned_at(at, chars, weight, 1);
        }
        if space_at(text, at) {
            weight += 1;
            chars += 1;
            at += 1;
            continue;
        }
        if let Some(letter) = long_len(text, at) {
            return scanned_at(at, chars, weight, letter as u32);
        }
        match decode(text, at) {
            Decoded::Char { cp, len } => {
                if !in_run(cp) {
                    return scanned_at(at, chars, weight, len);
                }
                weight += space_of(cp);
                chars += 1;
                at += len as usize;
            }
            Decoded::Bad | Decoded::End => {
                return scanned_at(at, chars, weight, 1);
            }
        }
    }
}
