// The token that stands at an offset of a text (rule 2 and rule 3).
ghost use Rattle.std.specs.Prelude.{◌≡◌, ◌+◌, ◌≤◌, length};
ghost use Rattle.utf8.specs.Encoding.{bytes};
ghost use Rattle.meaning.specs.Characters.{class_of};
ghost use Rattle.meaning.specs.Tokens.{first, tokens};
ghost use Rattle.parser.specs.Lexing.{chars_from, lexeme_at, lexed_at};
ghost use Rattle.parser.specs.Scanning.{alone_at, word_of, blank_of};

use crate::ascii::{plain_at, space_at};
use crate::characters::in_word;
use crate::glue::glue_of;
use crate::lexeme::Lexeme;
use crate::marks::{mark_at, mark_len};
use crate::scan::{Scanned, scan_run, scan_word};
use meaning::counts::{Chars, Offset};
use meaning::tokens::TokenKind;
use utf8::long::long_len;
use utf8::sequence::{Decoded, decode};

// A token of one character, which nothing has to end.
fn alone(kind: TokenKind, end: usize) -> Lexeme
    requires { end ≤ 65535 }
    ensures { result ≡ alone_at kind end }
{
    Lexeme {
        kind,
        end: Offset(end as u32),
        chars: Chars(1),
        count: Chars(0),
        glues: Chars(0),
        reach: Offset(end as u32),
    }
}

fn word(s: Scanned) -> Lexeme
    ensures { result ≡ word_of s }
{
    Lexeme {
        kind: TokenKind::Word,
        end: s.end,
        chars: s.chars,
        count: Chars(0),
        glues: s.weight,
        reach: s.reach,
    }
}

fn blank(s: Scanned) -> Lexeme
    ensures { result ≡ blank_of s }
{
    Lexeme {
        kind: TokenKind::Whitespace,
        end: s.end,
        chars: s.chars,
        count: s.weight,
        glues: Chars(0),
        reach: s.reach,
    }
}

// The token that starts with the character at an offset, which takes so many bytes.
fn lexeme_at(text: &[u8], at: usize, c: u32, len: u32) -> Lexeme
    requires { (length text.now ≤ 65535) × (at + len ≤ length text.now) × (len ≡ bytes c) }
    ensures { result ≡ lexeme_at at (first (class_of c) c (chars_from text.now (at + len))) }
{
    let next = at + len as usize;
    if in_word(c) {
        return word(scan_word(text, next, glue_of(c)));
    }
    if c == 0x000A {
        return alone(TokenKind::NewLine, next);
    }
    if c == 0x000D {
        return alone(TokenKind::CarriageReturn, next);
    }
    if c == 0x0009 {
        return alone(TokenKind::Tab, next);
    }
    if c == 0x00AD {
        return alone(TokenKind::Break, next);
    }
    if c == 0x200B {
        return alone(TokenKind::Whitespace, next);
    }
    blank(scan_run(text, next))
}

// The token at an offset, by the character there. A byte that starts no character ends the text.
fn decoded_at(text: &[u8], at: usize) -> Option<Lexeme>
    requires { length text.now ≤ 65535 }
    ensures { result ≡ lexed_at at (tokens (chars_from text.now at)) }
{
    match decode(text, at) {
        Decoded::Char { cp, len } => Some(lexeme_at(text, at, cp, len)),
        Decoded::Bad | Decoded::End => None,
    }
}

// The token at an offset. What texts are mostly made of is told by its bytes.
pub fn token_at(text: &[u8], at: usize) -> Option<Lexeme>
    requires { length text.now ≤ 65535 }
    ensures { result ≡ lexed_at at (tokens (chars_from text.now at)) }
{
    if plain_at(text, at) {
        return Some(word(scan_word(text, at + 1, 0)));
    }
    if space_at(text, at) {
        return Some(blank(scan_run(text, at + 1)));
    }
    if let Some(letter) = long_len(text, at) {
        return Some(word(scan_word(text, at + letter, 0)));
    }
    if let Some(mark) = mark_at(text, at) {
        return Some(alone(TokenKind::from(mark), at + mark_len(mark)));
    }
    decoded_at(text, at)
}
