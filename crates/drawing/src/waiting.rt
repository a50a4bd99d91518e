// A line's end before a word that waits behind one space: what becomes of the space is decided for measuring too
// (strides/src/waiting.rt), and what is drawn of it is what a pass draws from there (`StrideEvents.waits-thin`, `StrideEvents.waits-cut`).
// Rule 8, rule 13.
ghost use Rattle.std.specs.Prelude.{◌≡◌};
ghost use Rattle.steps.specs.Unrolled.{nothing_resumed};
ghost use Rattle.strides.specs.Strides.{Waits};
ghost use Rattle.drawing.specs.Drawn.{drawn_from};
ghost use Rattle.ink.specs.Sheet.{sheet, drawn_on};
ghost use Rattle.drawing.specs.DrawingOn.{PenReady};

use crate::inked::Inked;
use ink::pen::{Pen, put_one};
use meaning::line::EventKind;
use meaning::settings::Settings;
use strides::waiting::space_fits;

pub fn draw_waiting(text: &[u8], s: Settings, g: Inked, events: &mut [u32]) -> Pen
    requires { PenReady s g.place text.now g.at nothing_resumed g.pen × Waits s g.place text.now g.at g.waits }
    ensures { sheet events.new result ≡ drawn_on (sheet events.old g.pen) (drawn_from s g.place text.now g.at 0 0) }
{
    let p = g.place;
    let next = g.waits.next.0 as usize;
    if !space_fits(p) {
        return g.pen;
    }
    put_one(events, g.pen, EventKind::Space, g.at, next, 1, 0)
}
