// One space and the word behind it, read together (rule 2).
ghost use Rattle.std.specs.Prelude.{◌≡◌, true, ◌≤◌, length, IfSome};
ghost use Rattle.parser.specs.Scanning.{word_of};
ghost use Rattle.pairs.specs.Pairs.{long_space, Blank, PairAt};
ghost use Rattle.pairs.specs.PlainWords.{Stride};

use meaning::counts::Offset;
use parser::ascii::{ends_at, plain_at, space_at};
use parser::letters::{first_len, skip_plain};
use parser::scan::{Scanned, scan_word, scanned_at};

// Where the word starts, how far the space was looked at, and the word.
#[derive(Clone, Copy)]
pub struct Pair {
    pub from: Offset,
    pub looked: Offset,
    pub word: Scanned,
}

// U+3000, which does not glue (glue.rt).
fn is_long_space(a: u8, b: u8, c: u8) -> bool
    ensures { result ≡ long_space a b c }
{
    (a == 0xE3) & (b == 0x80) & (c == 0x80)
}

// Does it stand at a position.
fn long_space_at(text: &[u8], at: usize) -> bool
    ensures { result ≡ true → Blank text.now at 3 }
{
    if text.len() < 3 {
        return false;
    }
    if text.len() - 3 < at {
        return false;
    }
    is_long_space(text[at], text[at + 1], text[at + 2])
}

// How many bytes the white space has that stands at a position and counts as a space, where it is told so.
pub fn space_len(text: &[u8], at: usize) -> Option<usize>
    ensures { IfSome result (Blank text.now at) }
{
    if space_at(text, at) {
        return Some(1);
    }
    if long_space_at(text, at) {
        return Some(3);
    }
    None
}

// The end of the plain word behind one space at a position, if there is one.
pub fn stride_end(text: &[u8], at: usize) -> Option<usize>
    requires { length text.now ≤ 65535 }
    ensures { IfSome result (Stride text.now at) }
{
    if space_at(text, at) {
        let from = at + 1;
        if plain_at(text, from) {
            let end = skip_plain(text, from + 1, text.len());
            if ends_at(text, end) {
                return Some(end);
            }
        }
    }
    None
}

// One space at a position, and the word behind it, if its first letter is told by its bytes.
pub fn pair_at(text: &[u8], at: usize) -> Option<Pair>
    requires { length text.now ≤ 65535 }
    ensures { IfSome result (λ x. PairAt text.now at x.from.0 x.looked.0 (word_of x.word)) }
{
    let space = space_len(text, at)?;
    let from = at + space;
    let letter = first_len(text, from)?;
    let next = from + letter;
    let word = scan_word(text, next, 0);
    Some(Pair {
        from: Offset(from as u32),
        looked: Offset(next as u32),
        word,
    })
}

// The same of a plain word, in the fewest tests.
pub fn plain_pair(text: &[u8], at: usize) -> Option<Pair>
    requires { length text.now ≤ 65535 }
    ensures { IfSome result (λ x. PairAt text.now at x.from.0 x.looked.0 (word_of x.word)) }
{
    let end = stride_end(text, at)?;
    let from = at + 1;
    let n = (end - from) as u32;
    let word = scanned_at(end, n, 0, 1);
    let start = from as u32;
    let looked = start + 1;
    Some(Pair {
        from: Offset(start),
        looked: Offset(looked),
        word,
    })
}
