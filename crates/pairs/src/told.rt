// One space and a word with letters of two and three bytes, told by its bytes to its end (rule 2).
ghost use Rattle.std.specs.Prelude.{◌≡◌, ◌≤◌, length, IfSome};
ghost use Rattle.parser.specs.Scanning.{word_of};
ghost use Rattle.pairs.specs.Pairs.{PairAt};
ghost use Rattle.pairs.specs.Told.{ToldWord};

use crate::pair::{Pair, pair_at};
use meaning::counts::Offset;
use parser::ascii::{ends_at, space_at};
use parser::glue::glue_len;
use parser::letters::{first_len, skip_plain};
use parser::scan::scanned_at;
use utf8::long::long_len;

// Where a word ends, how many of its bytes continue a character, and how many of its characters glue.
#[derive(Clone, Copy)]
pub struct Told {
    pub end: usize,
    pub conts: u32,
    pub glues: u32,
}

// The rest of a word from a position on. It is told if a space, a line feed or the text's end ends it.
fn told_rest(text: &[u8], from: usize) -> Option<Told>
    requires { (length text.now ≤ 65535) × (from ≤ length text.now) }
    ensures { IfSome result (λ x. ToldWord text.now from x.end x.conts x.glues) }
{
    let mut at = from;
    let mut conts: u32 = 0;
    let mut glues: u32 = 0;
    loop {
        let end = skip_plain(text, at, text.len());
        if ends_at(text, end) {
            return Some(Told { end, conts, glues });
        }
        if let Some(letter) = long_len(text, end) {
            at = end + letter;
            conts += letter as u32 - 1;
            continue;
        }
        let glue = glue_len(text, end)?;
        at = end + glue;
        conts += glue as u32 - 1;
        glues += 1;
    }
}

// One space at a position, and the word behind it, if its first letter is told by its bytes.
pub fn told_pair(text: &[u8], at: usize) -> Option<Pair>
    requires { length text.now ≤ 65535 }
    ensures { IfSome result (λ x. PairAt text.now at x.from.0 x.looked.0 (word_of x.word)) }
{
    if space_at(text, at) {
        let from = at + 1;
        if let Some(letter) = first_len(text, from) {
            let next = from + letter;
            if let Some(told) = told_rest(text, next) {
                let n = (told.end - next) as u32 - told.conts + 1;
                let word = scanned_at(told.end, n, told.glues, 1);
                let start = from as u32;
                let looked = next as u32;
                return Some(Pair {
                    from: Offset(start),
                    looked: Offset(looked),
                    word,
                });
            }
        }
    }
    pair_at(text, at)
}
