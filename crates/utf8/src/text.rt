// A text of bytes: how much of it is UTF-8, where its characters begin, and how many there are (refusal 4, refusal 6).
ghost use Rattle.std.specs.Prelude.{◌≤◌, ◌<◌, ◌≡◌, true, length};
ghost use Rattle.utf8.specs.Decoding.{valid_prefix};
ghost use Rattle.utf8.specs.Places.{boundary_at, count_chars};
ghost use Rattle.utf8.specs.Ascii.{Passed, Below, Plain};

use crate::long::{long_len, wide_at};
use crate::sequence::{Decoded, decode, is_cont};
use crate::whole::all_told;

// Is every byte of a stretch below 80, a character by itself. All are looked at, with no branch, so that it is done many bytes at a time.
fn all_ascii(text: &[u8], from: usize, to: usize) -> bool
    requires { (from ≤ to) × (to ≤ length text.now) }
    ensures { result ≡ true → Below text.now from to }
{
    text[from..to].iter().fold(true, |all, b| all & (*b < 0x80))
}

// Blocks of so many bytes below 80 are skipped, while there are any.
fn skip_blocks(text: &[u8], from: usize, block: usize) -> usize
    requires { (from ≤ length text.now) × (0 < block) }
    ensures { Plain text.now from result }
{
    if text.len() < block {
        return from;
    }
    let last = text.len() - block;
    // By hand: chunks_exact and take_while take two thirds more instructions here.
    let mut at = from;
    while at <= last {
        let next = at + block;
        if !all_ascii(text, at, next) {
            return at;
        }
        at = next;
    }
    at
}

// Large blocks of bytes below 80 at a text's front are skipped.
fn skip_front(text: &[u8]) -> usize
    ensures { Plain text.now 0 result }
{
    let large = skip_blocks(text, 0, 64);
    skip_blocks(text, large, 32)
}

// Are all bytes from a position on below 80, by one look at the text's last bytes.
fn ends_ascii(text: &[u8], from: usize) -> bool
    requires { from ≤ length text.now }
    ensures { result ≡ true → Passed text.now from (length text.now) }
{
    if text.len() < 32 {
        return false;
    }
    let last = text.len() - 32;
    if from < last {
        return false;
    }
    all_ascii(text, last, last + 32)
}

// Bytes below 80 are skipped, to the first that is none of them.
fn skip_ascii(text: &[u8], from: usize) -> usize
    requires { from ≤ length text.now }
    ensures { Plain text.now from result }
{
    let large = skip_blocks(text, from, 64);
    let at = skip_blocks(text, large, 8);
    for i in at..text.len() {
        if 0x80 <= text[i] {
            return i;
        }
    }
    text.len()
}

// Letters of three bytes that the fewest tests tell are skipped.
fn skip_wide(text: &[u8], from: usize) -> usize
    requires { from ≤ length text.now }
    ensures { Passed text.now from result }
{
    let mut at = from;
    // No `for`: how many there are is what the text tells.
    while wide_at(text, at) {
        at += 3;
    }
    at
}

// All letters of two and three bytes that are told by their bytes alone are skipped.
fn skip_long(text: &[u8], from: usize) -> usize
    requires { from ≤ length text.now }
    ensures { Passed text.now from result }
{
    let mut at = from;
    while let Some(len) = long_len(text, at) {
        at = skip_wide(text, at + len);
    }
    at
}

// Both kinds are skipped, by turns.
fn skip_common(text: &[u8], from: usize) -> usize
    requires { from ≤ length text.now }
    ensures { Passed text.now from result }
{
    let mut at = from;
    loop {
        let ascii = skip_ascii(text, at);
        at = skip_long(text, ascii);
        if at == ascii {
            return at;
        }
    }
}

// Is all that follows a position UTF-8, as far as that is told many bytes at a time.
fn ends_told(text: &[u8], from: usize) -> bool
    requires { from ≤ length text.now }
    ensures { result ≡ true → Passed text.now from (length text.now) }
{
    if ends_ascii(text, from) {
        return true;
    }
    all_told(text, from)
}

// How many bytes the longest prefix has that is UTF-8.
pub fn valid_prefix(text: &[u8]) -> usize
    ensures { result ≡ valid_prefix text.now }
{
    let ascii = skip_front(text);
    if ends_told(text, ascii) {
        return text.len();
    }
    let mut at = skip_common(text, ascii);
    loop {
        match decode(text, at) {
            Decoded::Char { cp: _, len } => {
                at = skip_common(text, at + len as usize);
            }
            Decoded::Bad => {
                return at;
            }
            Decoded::End => {
                return at;
            }
        }
    }
}

// Does a character begin at a position, or the text end there.
pub fn is_boundary(text: &[u8], at: usize) -> bool
    ensures { result ≡ boundary_at text.now at }
{
    if at < text.len() {
        return !is_cont(text[at]);
    }
    at == text.len()
}

// How many characters begin in a text.
pub fn count_chars(text: &[u8]) -> usize
    ensures { result ≡ count_chars text.now }
{
    // No chain: filter and count take twice as many instructions here.
    let mut n: usize = 0;
    for b in text {
        if !is_cont(*b) {
            n += 1;
        }
    }
    n
}

// The same, of a text that may be long: bytes below 80 at its front are counted many at a time.
pub fn count_long(text: &[u8]) -> usize
    ensures { result ≡ count_chars text.now }
{
    let ascii = skip_ascii(text, 0);
    ascii + count_chars(&text[ascii..])
}
