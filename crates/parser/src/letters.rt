// Letters of one, two and three bytes, told by their bytes and skipped. None of them glues (rule 2).
ghost use Rattle.std.specs.Prelude.{◌≤◌, length, IfSome};
ghost use Rattle.parser.specs.Letters.{Letter, GoesOn, Lettered};

use crate::ascii::{is_plain, plain_at};
use utf8::long::{broad_at, long_len, wide_at};

// How many bytes the letter has that stands at a position, where it is told so.
pub fn first_len(text: &[u8], at: usize) -> Option<usize>
    ensures { IfSome result (λ n. Letter text.now at n) }
{
    if plain_at(text, at) {
        return Some(1);
    }
    long_len(text, at)
}

// The same of one byte, and of three in the fewest tests, for loops that decode what is not told. It is not one with `first_len`:
// all tests together are too long to be compiled into their callers, which a text of letters pays with a twelfth.
pub fn letter_len(text: &[u8], at: usize) -> Option<usize>
    ensures { IfSome result (λ n. Letter text.now at n) }
{
    if plain_at(text, at) {
        return Some(1);
    }
    if wide_at(text, at) {
        return Some(3);
    }
    None
}

// Letters of one byte are skipped, but none from a limit on.
pub fn skip_plain(text: &[u8], from: usize, limit: usize) -> usize
    requires { (from ≤ limit) × (limit ≤ length text.now) }
    ensures { Lettered text.now from result × (result ≤ limit) }
{
    // By hand: with a `for`, the tokens of a text take a twelfth more instructions.
    let mut at = from;
    while at < limit {
        if !is_plain(text[at]) {
            return at;
        }
        at += 1;
    }
    at
}

// Where letters end, and how many there are.
#[derive(Clone, Copy)]
pub struct Letters {
    pub end: usize,
    pub chars: u32,
}

// Letters of three bytes that the fewest tests tell are skipped, and the marks between them.
fn skip_wide(text: &[u8], from: usize) -> Letters
    requires { (length text.now ≤ 65535) × (from ≤ length text.now) }
    ensures { GoesOn text.now from result.end result.chars 0 }
{
    // No `for`: how many there are is what the text tells.
    let mut end = from;
    let mut chars: u32 = 0;
    while broad_at(text, end) {
        end += 3;
        chars += 1;
    }
    Letters { end, chars }
}

// Letters of one byte are skipped, and then one of two bytes, or of three and what follows it, and so on.
pub fn skip_letters(text: &[u8], from: usize) -> Letters
    requires { (length text.now ≤ 65535) × (from ≤ length text.now) }
    ensures { GoesOn text.now from result.end result.chars 0 }
{
    let mut at = from;
    let mut skipped: u32 = 0;
    loop {
        let end = skip_plain(text, at, text.len());
        let chars = skipped + (end - at) as u32;
        let Some(len) = long_len(text, end) else {
            return Letters { end, chars };
        };
        if len == 2 {
            at = end + 2;
            skipped = chars + 1;
            continue;
        }
        let wide = skip_wide(text, end + len);
        at = wide.end;
        skipped = chars + 1 + wide.chars;
    }
}
