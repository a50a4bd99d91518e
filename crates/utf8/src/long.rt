// Letters of two and three bytes that are told without putting their numbers together. Not every letter of so many bytes is told.
// Refusal 4, rule 2.
ghost use Rattle.std.specs.Prelude.{◌≡◌, true, ◌≤◌, ◌<◌, IfSome};
ghost use Rattle.utf8.specs.Long.{wide, mark, latin, Couple, Triple, Long};

use crate::sequence::is_cont;

// What most of what is written in Chinese and Japanese is made of, in the fewest tests.
fn is_wide(a: u8, b: u8, c: u8) -> bool
    ensures { result ≡ wide a b c }
{
    (0xE3 <= a) & (a <= 0xEC) & (0x81 <= b) & (b <= 0xBF) & (0x80 <= c) & (c <= 0xBF)
}

// Do such bytes stand at a position.
pub fn wide_at(text: &[u8], at: usize) -> bool
    ensures { result ≡ true → Long text.now at 3 }
{
    if text.len() < 3 {
        return false;
    }
    if text.len() - 3 < at {
        return false;
    }
    is_wide(text[at], text[at + 1], text[at + 2])
}

// Above U+3000 in its block: what ends and parts sentences there.
fn is_mark(a: u8, b: u8, c: u8) -> bool
    ensures { result ≡ mark a b c }
{
    (a == 0xE3) & (b == 0x80) & (0x81 <= c) & (c <= 0xBF)
}

// Do these, or one of the marks between them.
pub fn broad_at(text: &[u8], at: usize) -> bool
    ensures { result ≡ true → Long text.now at 3 }
{
    if wide_at(text, at) {
        return true;
    }
    if text.len() < 3 {
        return false;
    }
    if text.len() - 3 < at {
        return false;
    }
    is_mark(text[at], text[at + 1], text[at + 2])
}

// Behind the lead E2: U+2010 to U+2027, which are dashes, quotes and dots, and from U+2080 on signs of all kinds.
fn is_sign(b: u8, c: u8) -> bool
    ensures { result ≡ true → Triple 0xE2 b c }
{
    if !is_cont(c) {
        return false;
    }
    if b == 0x80 {
        if c < 0x90 {
            return false;
        }
        if 0xA7 < c {
            return false;
        }
        return true;
    }
    (0x82 <= b) & (b <= 0xBF)
}

// Behind a lead from E3 on: all above U+3000 but the surrogates.
fn is_high(a: u8, b: u8, c: u8) -> bool
    ensures { result ≡ true → Triple a b c }
{
    if !is_cont(b) {
        return false;
    }
    if !is_cont(c) {
        return false;
    }
    if a == 0xE3 {
        return (0x80 < b) | (0x80 < c);
    }
    if a == 0xED {
        return b < 0xA0;
    }
    (0xE3 < a) & (a < 0xF0)
}

fn is_triple(a: u8, b: u8, c: u8) -> bool
    ensures { result ≡ true → Triple a b c }
{
    if a == 0xE2 {
        return is_sign(b, c);
    }
    is_high(a, b, c)
}

fn is_latin(b: u8) -> bool
    ensures { result ≡ latin b }
{
    (0xA1 <= b) & (b <= 0xBF) & (b != 0xAD)
}

// Behind the lead C2: U+00A1 to U+00BF but the soft hyphen. Behind a higher lead of two bytes: all.
fn is_pair(a: u8, b: u8) -> bool
    requires le_a { 0xC2 ≤ a }
    requires a_bound { a < 0xE0 }
    ensures { result ≡ true → Couple a b }
{
    if a == 0xC2 {
        return is_latin(b);
    }
    is_cont(b)
}

// How many bytes the letter has that stands at a position, these and others, where it is told so.
pub fn long_len(text: &[u8], at: usize) -> Option<usize>
    ensures { IfSome result (λ n. Long text.now at n) }
{
    if text.len() <= at {
        return None;
    }
    let a = text[at];
    if a < 0xC2 {
        return None;
    }
    let left = text.len() - at;
    if left < 2 {
        return None;
    }
    let b = text[at + 1];
    if a < 0xE0 {
        if is_pair(a, b) {
            return Some(2);
        }
        return None;
    }
    if left < 3 {
        return None;
    }
    if is_triple(a, b, text[at + 2]) {
        return Some(3);
    }
    None
}
