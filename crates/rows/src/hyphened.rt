// A pass over a line that begins with a soft hyphen, with room for its "-" and for no character more: the word behind it waits for the
// next line or is dropped, and no step is taken (rule 8).
ghost use Rattle.rows.specs.Hyphened.{Starts, Dashes, DashedIs, HyphenedIs};

use meaning::counts::{Chars, Offset};
use meaning::cursor::Place;
use meaning::line::LineEnd;
use meaning::settings::Settings;
use meaning::tokens::TokenKind;
use moves::cursor::room;
use moves::measure::{noted_print, nothing_measured};
use parser::lexeme::Lexeme;
use parser::lexer::token_at;
use parser::marks::hyphen_at;
use steps::ending::ends_before;
use steps::step::{Ended, Resumed};

// Where the word behind the soft hyphen is one that another soft hyphen ends.
fn hyphened_word(text: &[u8], s: Settings, p: Place, at: usize) -> Option<Ended>
    requires { Dashes s p text.now at }
    ensures { DashedIs s p text.now at result }
{
    let token = token_at(text, at + 2);
    let Some(x) = token else {
        return None;
    };
    let TokenKind::Word = x.kind else {
        return None;
    };
    if !hyphen_at(text, x.end.0 as usize) {
        return None;
    }
    let m = noted_print(nothing_measured(), s.glyph);
    let reach = x.reach.0.max(x.end.0 + 2);
    if s.wrap == 1 {
        let next = at as u32 + 2;
        let e = ends_before(LineEnd::LineBreak, m, Offset(next), Chars(0), Offset(reach));
        return Some(e);
    }
    let dropped = x.chars;
    let e = ends_before(LineEnd::LineBreak, m, x.end, dropped, Offset(reach));
    Some(e)
}

// The pass over the line that starts at a place and an offset.
pub fn hyphened_pass(text: &[u8], s: Settings, p: Place, at: usize, rest: Resumed) -> Option<Ended>
    requires { Starts s p text.now at rest }
    ensures { HyphenedIs s p text.now at rest result }
{
    if !hyphen_at(text, at) {
        return None;
    }
    if rest.chars.0 != 0 {
        return None;
    }
    let left = room(p.cursor);
    let glyph = s.glyph.0;
    if left < glyph {
        return None;
    }
    if glyph + glyph <= left {
        return None;
    }
    hyphened_word(text, s, p, at)
}
