// What a line begins with: the rest that it resumes, or a token, which may be known. A word that is cut over many lines is
// looked through once.
// Rule 8, rule 9.
ghost use Rattle.std.specs.Prelude.{◌≤◌, ◌≡◌, length};
ghost use Rattle.meaning.specs.Tokens.{tokens};
ghost use Rattle.meaning.specs.Line.{held_tokens};
ghost use Rattle.parser.specs.Lexing.{chars_from, lexed_at};
ghost use Rattle.parser.specs.Shorter.{Between};
ghost use Rattle.steps.specs.Pending.{RestFits, rest_lexeme};
ghost use Rattle.steps.specs.Knowing.{KnownFits, nothing_known, known_at};

use crate::step::Resumed;
use meaning::counts::{Chars, Offset};
use meaning::tokens::TokenKind;
use parser::ascii::worth_knowing;
use parser::later::token_left;
use parser::lexeme::Lexeme;
use parser::lexer::token_at;
use parser::scan::ender_at;

// The token at an offset, which may be a word that goes on in the next line.
#[derive(Clone, Copy)]
pub struct Known {
    pub at: Offset,
    pub first: Option<Lexeme>,
}

// Nothing is known.
pub fn nothing_known() -> Known
    ensures { result ≡ nothing_known }
{
    Known {
        at: Offset(0),
        first: None,
    }
}

pub fn known_at(at: usize, first: Option<Lexeme>) -> Known
    requires { at ≤ 65535 }
    ensures { result ≡ known_at at first }
{
    Known {
        at: Offset(at as u32),
        first,
    }
}

// The token at an offset: of a word that is known at an offset before, what is left of it after so many characters.
fn known_token(text: &[u8], at: usize, known: Known, from: usize, chars: u32) -> Option<Lexeme>
    requires { (length text.now ≤ 65535) × KnownFits text.now known × Between text.now from at chars }
    ensures { result ≡ lexed_at at (tokens (chars_from text.now at)) }
{
    if known.at.0 as usize != from {
        return token_at(text, at);
    }
    let Some(x) = known.first else {
        return token_at(text, at);
    };
    match x.kind {
        TokenKind::Word => token_left(text, from, x, at, chars),
        _ => token_at(text, at),
    }
}

// The rest of a space run as one token, ended by a character of so many bytes.
fn rest_lexeme(rest: Resumed, ender: u32) -> Lexeme
    requires { (rest.end.0 ≤ 65535) × (ender ≤ 4) }
    ensures { result ≡ rest_lexeme rest ender }
{
    Lexeme {
        kind: TokenKind::Whitespace,
        end: rest.end,
        chars: rest.chars,
        count: rest.count,
        glues: Chars(0),
        reach: Offset(rest.end.0 + ender),
    }
}

// The rest that a line resumes, or else the token at its offset.
pub fn first_token(text: &[u8], at: usize, rest: Resumed, known: Known) -> Option<Lexeme>
    requires { (length text.now ≤ 65535) × RestFits text.now at rest × KnownFits text.now known }
    ensures { result ≡ lexed_at at (held_tokens rest.chars.0 rest.count.0 (chars_from text.now at)) }
{
    if rest.chars.0 == 0 {
        if known.at.0 as usize != at {
            return token_at(text, at);
        }
        return known_token(text, at, known, at, 0);
    }
    Some(rest_lexeme(rest, ender_at(text, rest.end.0 as usize)))
}

// What is known for a line at an offset, from what was known for the line before it, which took so many characters. A line that resumes
// a rest begins with no word. A word that may be one that the line before cut is looked for, and one that may be long: it is looked
// through once for all that read it.
pub fn known_from(
    text: &[u8],
    at: usize,
    rest: Resumed,
    known: Known,
    from: usize,
    chars: u32,
) -> Known
    requires { (length text.now ≤ 65535) × (at ≤ length text.now) × KnownFits text.now known × Between text.now from at chars }
    ensures { KnownFits text.now result }
{
    if rest.chars.0 != 0 {
        return nothing_known();
    }
    if worth_knowing(text, at) {
        return known_at(at, known_token(text, at, known, from, chars));
    }
    nothing_known()
}

// What is known for a line at an offset: what was known before, or else the token there.
pub fn known_here(text: &[u8], at: usize, known: Known) -> Known
    requires { (length text.now ≤ 65535) × (at ≤ length text.now) × KnownFits text.now known }
    ensures { KnownFits text.now result }
{
    if let Some(_) = known.first {
        return known;
    }
    known_at(at, token_at(text, at))
}
