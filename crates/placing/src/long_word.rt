// A word that is wider than the box, which is cut over lines (rule 2, rule 8).
ghost use Rattle.std.specs.Prelude.{◌≤◌, ◌<◌, ◌≡◌, length, IfSome};
ghost use Rattle.steps.specs.Knowing.{KnownFits};
ghost use Rattle.placing.specs.LeftWords.{LongWord};

use crate::known::known_word;
use parser::letters::first_len;
use parser::scan::{Scanned, scan_word};
use steps::first::Known;

// Do so many bytes behind a position have no space and no line feed among them: then a word may be as long. A guess, which nothing rests on.
fn may_be_long(text: &[u8], from: usize, most: u32) -> bool
    requires { (from ≤ length text.now) × (length text.now ≤ 65535) }
{
    let limit = from + most as usize;
    if text.len() <= limit {
        return false;
    }
    text[from + 1..limit + 1].iter().rev().all(|b| 0x20 < *b)
}

// A scanned word, if it has more characters than that.
fn if_longer(word: Scanned, most: u32) -> Option<Scanned>
    ensures { IfSome result (λ w. (w ≡ word) × (most < w.chars.0)) }
{
    if word.chars.0 <= most {
        return None;
    }
    Some(word)
}

// The word at an offset of a text, if it is wider than a box that holds so many characters, and is told to be.
pub fn long_word(text: &[u8], at: usize, most: u32) -> Option<Scanned>
    requires { (length text.now ≤ 65535) × (at ≤ length text.now) }
    ensures { IfSome result (LongWord text.now at most) }
{
    if most == 0 {
        return None;
    }
    if !may_be_long(text, at, most) {
        return None;
    }
    let letter = first_len(text, at)?;
    if_longer(scan_word(text, at + letter, 0), most)
}

// The same of a word that is known.
pub fn long_known(text: &[u8], at: usize, known: Known, most: u32) -> Option<Scanned>
    requires { KnownFits text.now known }
    ensures { IfSome result (LongWord text.now at most) }
{
    if most == 0 {
        return None;
    }
    let x = known_word(known, at)?;
    if_longer(Scanned::from(x), most)
}
