// The two looks ahead: the next word's width, and whether the next word fits (rule 8 and rule 12).
ghost use Rattle.std.specs.Prelude.{◌+◌, ◌≤◌, ◌<◌, ◌≡◌, length, None};
ghost use Rattle.meaning.specs.Tokens.{tokens};
ghost use Rattle.meaning.specs.Lookahead as meant;
ghost use Rattle.parser.specs.Lexing.{chars_from};
ghost use Rattle.moves.specs.Fine.{FineCursor, FineSpaces};
ghost use Rattle.steps.specs.Stepping.{look_of, ahead_of};
ghost use Rattle.steps.specs.Ahead.{known_of, look_at, white_width};

use meaning::counts::{Offset, Pixels};
use meaning::cursor::{LineCursor, Spaces};
use meaning::tokens::TokenKind;
use moves::cursor::{advanced, fits, tab_width};
use moves::space_config::{spaces_after, spaces_width};
use parser::lexeme::Lexeme;
use parser::lexer::token_at;
use steps::foreseen::{Look, WidthAhead};

// One width more.
fn with_width(w: Option<Pixels>, by: u32) -> Option<Pixels>
    requires { known_of w + by < 4294967296 }
    ensures { result ≡ meant.added w by }
{
    match w {
        None => Some(Pixels(by)),
        Some(v) => Some(Pixels(v.0 + by)),
    }
}

// The width of the words that follow, up to the white space after them: a soft hyphen adds its "-" and ends the looking.
pub fn next_word_width(text: &[u8], at: usize, glyph: u32) -> WidthAhead
    requires { (length text.now ≤ 65535) × (glyph ≤ 64) × (at ≤ length text.now) }
    ensures { result ≡ ahead_of (meant.next_width glyph None at (tokens (chars_from text.now at))) }
{
    let mut pos = at;
    let mut width = None;
    let mut reach: u32 = 0;
    let found = loop {
        let token = token_at(text, pos);
        let Some(x) = token else {
            break WidthAhead {
                width,
                reach: Offset(reach.max(pos as u32 + 1)),
            };
        };
        reach = reach.max(x.reach.0);
        match x.kind {
            TokenKind::Word => {
                width = with_width(width, x.chars.0 * glyph);
                pos = x.end.0 as usize;
            }
            TokenKind::Break => {
                let last = with_width(width, glyph);
                break WidthAhead {
                    width: last,
                    reach: Offset(reach),
                };
            }
            _ => {
                break WidthAhead {
                    width,
                    reach: Offset(reach),
                };
            }
        }
    };
    found
}

// What a look answers that has examined the text up to an offset.
fn look_at(fits: bool, reach: u32) -> Look
    ensures { result ≡ look_at fits reach }
{
    Look {
        fits,
        reach: Offset(reach),
    }
}

// The width of a tab, or of a space run that counts so many spaces.
pub fn white_width(kind: TokenKind, count: u32, cursor: LineCursor, spaces: Spaces) -> u32
    requires { FineCursor cursor × FineSpaces spaces × (count ≤ 65535) }
    ensures { result ≡ white_width kind count cursor spaces }
{
    match kind {
        TokenKind::Tab => tab_width(cursor),
        _ => spaces_width(spaces, count),
    }
}

// Whether the next word fits after the white space before it, which is taken as far as it fits.
pub fn next_word_fits(
    text: &[u8],
    at: usize,
    glyph: u32,
    cursor: LineCursor,
    spaces: Spaces,
) -> Look
    requires { FineCursor cursor × FineSpaces spaces × (length text.now ≤ 65535) × (glyph ≤ 64) × (at ≤ length text.now) }
    ensures { result ≡ look_of (meant.next_fits glyph cursor spaces at (tokens (chars_from text.now at))) }
{
    let mut pos = at;
    let mut cur = cursor;
    let mut left = spaces;
    let mut reach: u32 = 0;
    loop {
        let token = token_at(text, pos);
        let Some(x) = token else {
            return look_at(false, reach.max(pos as u32 + 1));
        };
        reach = reach.max(x.reach.0);
        match x.kind {
            TokenKind::Word => return look_at(fits(cur, x.chars.0 * glyph), reach),
            TokenKind::Break => return look_at(fits(cur, glyph), reach),
            TokenKind::Tab | TokenKind::Whitespace => {
                let w = white_width(x.kind, x.count.0, cur, left);
                if !fits(cur, w) {
                    return look_at(false, reach);
                }
                cur = advanced(cur, w);
                left = spaces_after(left, x.count.0);
                pos = x.end.0 as usize;
            }
            _ => return look_at(false, reach),
        }
    }
}
