// What a word does to a line (rule 7 and rule 8).
ghost use Rattle.std.specs.Prelude.{◌≤◌, ◌+◌, ◌*◌, ◌/◌, ◌≡◌, true, false, ◌&&◌};
ghost use Rattle.meaning.specs.Cursor.{room_of, fits_in, has_moved};
ghost use Rattle.meaning.specs.LineIter.{wrap_on};
ghost use Rattle.meaning.specs.declared.tokens.TokenKind.TheVariants.{Word};
ghost use Rattle.moves.specs.Fine.{FineSpaces, FinePlace};
ghost use Rattle.steps.specs.Ready.{Ready, step_from};
ghost use Rattle.steps.specs.Stopping.{word_measure, word_place};

use crate::ending::ends_before;
use crate::step::Stepped;
use meaning::counts::{Chars, Offset, Pixels};
use meaning::cursor::{LineCursor, Place, Spaces};
use meaning::line::{LineEnd, Measure};
use meaning::settings::Settings;
use moves::cursor::{advanced, fits, has_moved, room};
use moves::measure::printed_at;
use moves::space_config::{spaces_after, spaces_width};
use parser::lexeme::Lexeme;
use parser::part::part_of;

// What is measured after a word of n characters, g of which glue: a space each, and a glyph for every other.
pub fn word_measure(glyph: Pixels, sp: Spaces, m: Measure, n: Chars, g: Chars) -> Measure
    requires { FineSpaces sp × (glyph.0 ≤ 64) × (n.0 ≤ 65535) × (g.0 ≤ n.0) × (m.pen.0 ≤ 8192 * 65535) × (m.spaces.0 ≤ 65535) }
    ensures { result ≡ word_measure glyph.0 sp m n.0 g.0 }
{
    let letters = (n.0 - g.0) * glyph.0;
    let pen = m.pen.0 + letters + spaces_width(sp, g.0);
    printed_at(Pixels(pen), Chars(m.spaces.0 + g.0))
}

// The place after such a word, which fits.
pub fn word_place(glyph: Pixels, p: Place, n: Chars, g: Chars) -> Place
    requires { FinePlace p × (fits_in p.cursor (n.0 * glyph.0) ≡ true) }
    ensures { result ≡ word_place glyph.0 p n.0 g.0 }
{
    let before = p.cursor;
    let cursor = advanced(before, n.0 * glyph.0);
    let left = spaces_after(p.spaces, g.0);
    Place {
        cursor,
        spaces: left,
        empty: false,
    }
}

// Does a word of which no character fits wait for the next line: with wrap on, if the cursor has left its starting place.
fn waits(s: Settings, c: LineCursor) -> bool
    ensures { result ≡ wrap_on s && has_moved c }
{
    (s.wrap == 1) & has_moved(c)
}

// On an empty line a word of which no character fits waits, or is dropped whole.
fn unfit_word(text: &[u8], s: Settings, p: Place, at: usize, x: Lexeme, m: Measure) -> Stepped
    requires { Ready s p text.now at x m × (x.kind ≡ Word) × (fits_in p.cursor (x.chars.0 * s.glyph.0) ≡ false) × (p.empty ≡ true)
        × (room_of p.cursor / s.glyph.0 ≡ 0) }
    ensures { result ≡ step_from s p text.now at x m }
{
    let here = at as u32;
    if waits(s, p.cursor) {
        return Stepped::Stop(ends_before(LineEnd::LineBreak, m, Offset(here), Chars(0), Offset(0)));
    }
    let dropped = x.chars;
    Stepped::Stop(ends_before(LineEnd::LineBreak, m, x.end, dropped, Offset(0)))
}

// A word too wide for an empty line gives its longest fitting part.
fn cut_word(text: &[u8], s: Settings, p: Place, at: usize, x: Lexeme, m: Measure) -> Stepped
    requires { Ready s p text.now at x m × (x.kind ≡ Word) × (fits_in p.cursor (x.chars.0 * s.glyph.0) ≡ false) × (p.empty ≡ true) }
    ensures { result ≡ step_from s p text.now at x m }
{
    let fitting = room(p.cursor) / s.glyph.0;
    if fitting == 0 {
        return unfit_word(text, s, p, at, x, m);
    }
    let part = part_of(text, at, fitting);
    let next = part.end;
    let after = word_measure(s.glyph, p.spaces, m, Chars(fitting), part.glues);
    Stepped::Stop(ends_before(LineEnd::LineBreak, after, next, Chars(0), Offset(0)))
}

// A word that does not fit waits for the next line, if this one is not empty.
pub fn on_word(text: &[u8], s: Settings, p: Place, at: usize, x: Lexeme, m: Measure) -> Stepped
    requires { Ready s p text.now at x m × (x.kind ≡ Word) }
    ensures { result ≡ step_from s p text.now at x m }
{
    if fits(p.cursor, x.chars.0 * s.glyph.0) {
        let after = word_measure(s.glyph, p.spaces, m, x.chars, x.glues);
        let place = word_place(s.glyph, p, x.chars, x.glues);
        return Stepped::Go(place, after, Offset(0));
    }
    if p.empty {
        return cut_word(text, s, p, at, x, m);
    }
    Stepped::Stop(ends_before(
        LineEnd::LineBreak,
        m,
        Offset(at as u32),
        Chars(0),
        Offset(0),
    ))
}
