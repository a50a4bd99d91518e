// The events of a word: of all of it where it fits, else of its longest fitting part (rule 8, rule 13).
ghost use Rattle.std.specs.Prelude.{◌≡◌, true, false, ◌*◌, take};
ghost use Rattle.meaning.specs.Cursor.{fits_in};
ghost use Rattle.meaning.specs.Words.{drawn_word};
ghost use Rattle.meaning.specs.declared.tokens.TokenKind.TheVariants.{Word};
ghost use Rattle.parser.specs.Lexing.{chars_from};
ghost use Rattle.ink.specs.Sheet.{sheet, drawn_on};
ghost use Rattle.ink.specs.Stretching.{WordRoom};
ghost use Rattle.prints.specs.TokenDrawn.{tok_drawn, PartIs, DrawReady};

use ink::pen::{Pen, put_one};
use ink::words::draw_word;
use meaning::cursor::{Place, Spaces};
use meaning::line::EventKind;
use meaning::settings::Settings;
use moves::cursor::room;
use parser::lexeme::Lexeme;
use parser::part::{Part, part_of};

// The first n characters from an offset on: one print, unless there are gluing characters among them.
pub fn draw_part(
    text: &[u8],
    at: usize,
    n: u32,
    part: Part,
    glyph: u32,
    spaces: Spaces,
    pen: Pen,
    events: &mut [u32],
) -> Pen
    requires { WordRoom text.now at n glyph spaces pen × PartIs text.now at n part }
    ensures { sheet events.new result ≡ drawn_on (sheet events.old pen) (drawn_word glyph spaces at (take n (chars_from text.now at))) }
{
    if part.glues.0 == 0 {
        let to = part.end.0 as usize;
        return put_one(events, pen, EventKind::Printed, at, to, 0, n * glyph);
    }
    draw_word(text, at, n, glyph, spaces, pen, events)
}

// A word that fits.
pub fn draw_whole(
    text: &[u8],
    s: Settings,
    p: Place,
    at: usize,
    x: Lexeme,
    pen: Pen,
    events: &mut [u32],
) -> Pen
    requires { DrawReady s p text.now at x pen × (x.kind ≡ Word) × (fits_in p.cursor (x.chars.0 * s.glyph.0) ≡ true) }
    ensures { sheet events.new result ≡ drawn_on (sheet events.old pen) (tok_drawn s p text.now at x) }
{
    let all = Part {
        end: x.end,
        glues: x.glues,
    };
    draw_part(text, at, x.chars.0, all, s.glyph.0, p.spaces, pen, events)
}

// A word that does not fit: its longest fitting part in an empty line, else nothing.
pub fn draw_cut(
    text: &[u8],
    s: Settings,
    p: Place,
    at: usize,
    x: Lexeme,
    pen: Pen,
    events: &mut [u32],
) -> Pen
    requires { DrawReady s p text.now at x pen × (x.kind ≡ Word) × (fits_in p.cursor (x.chars.0 * s.glyph.0) ≡ false) }
    ensures { sheet events.new result ≡ drawn_on (sheet events.old pen) (tok_drawn s p text.now at x) }
{
    if !p.empty {
        return pen;
    }
    let glyph = s.glyph.0;
    let fitting = room(p.cursor) / glyph;
    if fitting == 0 {
        return pen;
    }
    let part = part_of(text, at, fitting);
    draw_part(text, at, fitting, part, glyph, p.spaces, pen, events)
}
