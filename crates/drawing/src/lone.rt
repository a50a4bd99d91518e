// A line that is a "-" alone: a soft hyphen begins it, and leaves no room for a character of the word behind it (rule 8, rule 13).
ghost use Rattle.std.specs.Prelude.{◌≤◌, ◌≡◌, length, true};
ghost use Rattle.meaning.specs.Line.{unmeasured};
ghost use Rattle.parser.specs.Marks.{Mark};
ghost use Rattle.steps.specs.Running.{PassReady};
ghost use Rattle.ink.specs.Sheet.{sheet, drawn_on};
ghost use Rattle.drawing.specs.Drawn.{drawn_from};
ghost use Rattle.drawing.specs.DrawingOn.{PenReady};
ghost use Rattle.drawing.specs.LoneLines.{LoneLine};

use crate::inked::Inked;
use ink::pen::{Pen, put_one};
use meaning::cursor::Place;
use meaning::line::EventKind;
use meaning::settings::Settings;
use moves::cursor::room;
use parser::letters::first_len;
use parser::marks::hyphen_at;
use steps::step::Resumed;

// Whether the line that stands at an offset is such a one. It is not told where the word begins with a gluing character.
pub fn is_lone(text: &[u8], s: Settings, p: Place, at: usize, rest: Resumed) -> bool
    requires { PassReady s p text.now at rest unmeasured }
    ensures { result ≡ true → LoneLine s p text.now at rest }
{
    if !p.empty {
        return false;
    }
    if rest.chars.0 != 0 {
        return false;
    }
    if !hyphen_at(text, at) {
        return false;
    }
    let left = room(p.cursor);
    let glyph = s.glyph.0;
    if left < glyph {
        return false;
    }
    if glyph + glyph <= left {
        return false;
    }
    first_len(text, at + 2).is_some()
}

// Its "-".
pub fn draw_lone(text: &[u8], s: Settings, g: Inked, rest: Resumed, events: &mut [u32]) -> Pen
    requires { PenReady s g.place text.now g.at rest g.pen × LoneLine s g.place text.now g.at rest }
    ensures { sheet events.new result ≡ drawn_on (sheet events.old g.pen) (drawn_from s g.place text.now g.at rest.chars.0 rest.count.0) }
{
    put_one(
        events,
        g.pen,
        EventKind::Printed,
        g.at,
        g.at + 2,
        0,
        s.glyph.0,
    )
}
