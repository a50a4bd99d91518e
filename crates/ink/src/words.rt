// A printed word, drawn stretch by stretch (rule 8, rule 13).
ghost use Rattle.std.specs.Prelude.{◌+◌, ◌≤◌, ◌≡◌, [], ◌∷◌, take};
ghost use Rattle.meaning.specs.Words.{drawn, drawn_word};
ghost use Rattle.meaning.specs.declared.line.EventKind.TheVariants.{Printed};
ghost use Rattle.utf8.specs.Encoding.{bytes};
ghost use Rattle.parser.specs.Lexing.{chars_from};
ghost use Rattle.moves.specs.Fine.{FineSpaces};
ghost use Rattle.ink.specs.Sheet.{sheet, drawn_on};
ghost use Rattle.ink.specs.WordDrawn.{closed};
ghost use Rattle.ink.specs.Stretching.{FineStretch, Passed, WordRoom};

use crate::pen::{Pen, put_one};
use meaning::cursor::Spaces;
use meaning::line::EventKind;
use moves::space_config::{spaces_after, spaces_width};
use parser::glue::is_glue;
use utf8::sequence::{Decoded, decode};

// A stretch of a width, and the gluing character after it. An empty stretch is not printed.
fn close_stretch(
    events: &mut [u32],
    pen: Pen,
    from: usize,
    to: usize,
    wide: u32,
    end: usize,
    sp: Spaces,
) -> Pen
    requires { FineSpaces sp × (pen.next ≤ 900000000) × (pen.x.0 + wide ≤ 4000000000) × (from ≤ 65535) × (to ≤ 65535) × (end ≤ 65535) }
    ensures { sheet events.new result ≡ drawn_on (sheet events.old pen) (closed from to wide end sp) }
{
    let space = spaces_width(sp, 1);
    if to == from {
        return put_one(events, pen, EventKind::Space, to, end, 1, space);
    }
    let printed = put_one(events, pen, EventKind::Printed, from, to, 0, wide);
    put_one(events, printed, EventKind::Space, to, end, 1, space)
}

// A word between two of its characters: the pen before the open stretch, the spaces left, where the stretch began, and its width.
#[derive(Clone, Copy)]
struct Stretch {
    pen: Pen,
    spaces: Spaces,
    from: usize,
    at: usize,
    wide: u32,
}

// One more character, of so many bytes: it makes the stretch longer, or closes it.
fn add_char(events: &mut [u32], w: Stretch, c: u32, len: u32, glyph: u32) -> Stretch
    requires { FineStretch w × (w.at + len ≤ 65535) × (len ≡ bytes c) × (glyph ≤ 64) }
    ensures { Passed events.old events.new w result c len glyph }
{
    let end = w.at + len as usize;
    if is_glue(c) {
        let closed = close_stretch(events, w.pen, w.from, w.at, w.wide, end, w.spaces);
        let after = spaces_after(w.spaces, 1);
        return Stretch {
            pen: closed,
            spaces: after,
            from: end,
            at: end,
            wide: 0,
        };
    }
    Stretch {
        at: end,
        wide: w.wide + glyph,
        ..w
    }
}

// The last stretch is printed, empty or not.
fn last_stretch(events: &mut [u32], w: Stretch) -> Pen
    requires { FineStretch w }
    ensures { sheet events.new result ≡ drawn_on (sheet events.old w.pen) (drawn Printed w.from w.at 0 w.wide ∷ []) }
{
    put_one(events, w.pen, EventKind::Printed, w.from, w.at, 0, w.wide)
}

// The events of a printed word: the n characters from an offset on, or as many as there are.
pub fn draw_word(
    text: &[u8],
    at: usize,
    n: u32,
    glyph: u32,
    spaces: Spaces,
    pen: Pen,
    events: &mut [u32],
) -> Pen
    requires { WordRoom text.now at n glyph spaces pen }
    ensures { sheet events.new result ≡ drawn_on (sheet events.old pen) (drawn_word glyph spaces at (take n (chars_from text.now at))) }
{
    let mut w = Stretch {
        pen,
        spaces,
        from: at,
        at,
        wide: 0,
    };
    for _i in 0..n {
        match decode(text, w.at) {
            Decoded::Char { cp, len } => {
                w = add_char(events, w, cp, len, glyph);
            }
            Decoded::Bad | Decoded::End => {
                return last_stretch(events, w);
            }
        }
    }
    last_stretch(events, w)
}
