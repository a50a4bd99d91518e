// What a soft hyphen does to a line (rule 7 and rule 8).
ghost use Rattle.std.specs.Prelude.{◌+◌, ◌≤◌, ◌≡◌, ◌||◌, not};
ghost use Rattle.meaning.specs.Cursor.{fits_in};
ghost use Rattle.meaning.specs.LineIter as meant;
ghost use Rattle.meaning.specs.Tokens.{softHyphen};
ghost use Rattle.meaning.specs.declared.tokens.TokenKind.TheVariants.{Break};
ghost use Rattle.moves.specs.Fine.{FineSettings, FinePlace};
ghost use Rattle.steps.specs.Stepping.{stepped_at};
ghost use Rattle.steps.specs.Ready.{Small, Ready, step_from};

use crate::line_iter::next_word_width;
use meaning::counts::{Chars, Offset, Pixels};
use meaning::cursor::Place;
use meaning::line::{LineEnd, Measure};
use meaning::settings::Settings;
use moves::cursor::fits;
use moves::measure::noted_print;
use moves::place::moved_on;
use parser::lexeme::Lexeme;
use steps::ending::ends_before;
use steps::step::Stepped;

// A "-" is printed if it fits. The line ends there unless it is still empty, and keeps a soft hyphen whose "-" did not fit.
fn hyphenated(s: Settings, p: Place, at: usize, m: Measure, reach: Offset) -> Stepped
    requires { FineSettings s × FinePlace p × Small at m × (at + 2 ≤ 65535) }
    ensures { result ≡ stepped_at m at softHyphen (meant.hyphenated s p at reach.0) }
{
    if fits(p.cursor, s.glyph.0) {
        let after = noted_print(m, s.glyph);
        if p.empty {
            return Stepped::Go(moved_on(p, s.glyph.0), after, reach);
        }
        let next = Offset(at as u32 + 2);
        return Stepped::Stop(ends_before(LineEnd::LineBreak, after, next, Chars(0), reach));
    }
    if p.empty {
        return Stepped::Go(p, m, reach);
    }
    Stepped::Stop(ends_before(LineEnd::LineBreak, m, Offset(at as u32), Chars(0), reach))
}

// Whether a soft hyphen before a word of a width shows: the word does not fit, or the line is still empty.
fn shows(p: Place, width: u32) -> bool
    requires { FinePlace p }
    ensures { result ≡ (p.empty || not (fits_in p.cursor width)) }
{
    if p.empty {
        return true;
    }
    !fits(p.cursor, width)
}

// A soft hyphen shows only if a word follows.
pub fn on_break(text: &[u8], s: Settings, p: Place, at: usize, x: Lexeme, m: Measure) -> Stepped
    requires { Ready s p text.now at x m × (x.kind ≡ Break) }
    ensures { result ≡ step_from s p text.now at x m }
{
    let ahead = next_word_width(text, x.end.0 as usize, s.glyph.0);
    let Some(w) = ahead.width else {
        return Stepped::Go(p, m, ahead.reach);
    };
    if shows(p, w.0) {
        return hyphenated(s, p, at, m, ahead.reach);
    }
    Stepped::Go(p, m, ahead.reach)
}
