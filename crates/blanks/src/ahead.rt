// What a look ahead sees is kept while white space is taken (rule 8).
ghost use Rattle.steps.specs.Foreseeing.{White, LookReady, ForeseesAfter};

use crate::line_iter::{next_word_fits, white_width};
use meaning::cursor::Place;
use meaning::settings::Settings;
use meaning::tokens::TokenKind;
use moves::cursor::{advanced, fits};
use moves::space_config::spaces_after;
use parser::lexeme::Lexeme;
use steps::foreseen::Look;

// The look from after white space that fits, on a line that is not empty: what the look from before it sees, where that is known.
fn look_beyond(
    text: &[u8],
    s: Settings,
    p: Place,
    at: usize,
    x: Lexeme,
    seen: Option<Look>,
) -> Option<Look>
    requires { LookReady s p text.now at x seen × White x.kind }
    ensures { ForeseesAfter s p text.now x result }
{
    if p.empty {
        return None;
    }
    let width = white_width(x.kind, x.count.0, p.cursor, p.spaces);
    if !fits(p.cursor, width) {
        return None;
    }
    if let Some(look) = seen {
        return Some(look);
    }
    let next = advanced(p.cursor, width);
    let left = spaces_after(p.spaces, x.count.0);
    Some(next_word_fits(text, x.end.0 as usize, s.glyph.0, next, left))
}

// What is known of the look from after the token x: only white space is looked beyond.
pub fn look_after(
    text: &[u8],
    s: Settings,
    p: Place,
    at: usize,
    x: Lexeme,
    seen: Option<Look>,
) -> Option<Look>
    requires { LookReady s p text.now at x seen }
    ensures { ForeseesAfter s p text.now x result }
{
    match x.kind {
        TokenKind::Tab | TokenKind::Whitespace => look_beyond(text, s, p, at, x, seen),
        _ => None,
    }
}
