// A word that is known where it starts, from a later offset on: its end need not be looked for again (rule 2, rule 8).
ghost use Rattle.std.specs.Prelude.{◌≡◌, ◌≤◌, length, Some};
ghost use Rattle.meaning.specs.Tokens.{tokens};
ghost use Rattle.meaning.specs.declared.tokens.TokenKind.TheVariants.{Word};
ghost use Rattle.parser.specs.Lexing.{chars_from, lexed_at};
ghost use Rattle.parser.specs.Shorter.{less, Between};

use crate::glue::glue_of;
use crate::letters::letter_len;
use crate::lexeme::Lexeme;
use crate::lexer::token_at;
use meaning::counts::Chars;
use utf8::sequence::{Decoded, decode};

// A word without so many of its first characters, of which so many glue.
fn without(x: Lexeme, chars: u32, glues: u32) -> Lexeme
    requires { (chars ≤ x.chars.0) × (glues ≤ x.glues.0) }
    ensures { result ≡ less x chars glues }
{
    Lexeme {
        chars: Chars(x.chars.0 - chars),
        glues: Chars(x.glues.0 - glues),
        ..x
    }
}

// The token at an offset, where a word stands at an offset before: the characters of the word that lie between are taken off it.
pub fn token_after(text: &[u8], from: usize, x: Lexeme, at: usize) -> Option<Lexeme>
    requires { (length text.now ≤ 65535) × (lexed_at from (tokens (chars_from text.now from)) ≡ Some x) × (x.kind ≡ Word) }
    ensures { result ≡ lexed_at at (tokens (chars_from text.now at)) }
{
    if x.end.0 as usize <= at {
        return token_at(text, at);
    }
    // No `for`: a turn passes a character, and the text says how many bytes that has.
    let mut pos = from;
    let mut chars: u32 = 0;
    let mut glues: u32 = 0;
    while pos < at {
        if let Some(letter) = letter_len(text, pos) {
            pos += letter;
            chars += 1;
            continue;
        }
        let Decoded::Char { cp, len } = decode(text, pos) else {
            return token_at(text, at);
        };
        glues += glue_of(cp);
        chars += 1;
        pos += len as usize;
    }
    if pos == at {
        return Some(without(x, chars, glues));
    }
    token_at(text, at)
}

// The same where it is known how many characters lie between. Where none of the word glues, they are not looked at.
pub fn token_left(text: &[u8], from: usize, x: Lexeme, at: usize, chars: u32) -> Option<Lexeme>
    requires text_len_bound { (length text.now ≤ 65535) × (lexed_at from (tokens (chars_from text.now from)) ≡ Some x) × (x.kind ≡ Word) }
    requires between { Between text.now from at chars }
    ensures { result ≡ lexed_at at (tokens (chars_from text.now at)) }
{
    if x.end.0 as usize <= at {
        return token_at(text, at);
    }
    if x.glues.0 != 0 {
        return token_after(text, from, x, at);
    }
    Some(without(x, chars, 0))
}
