// The pen that draws a line's events (rule 13).
ghost use Rattle.std.specs.Prelude.{◌+◌, ◌≤◌, ◌<◌, ◌≡◌, [], ◌∷◌};
ghost use Rattle.meaning.specs.Words.{drawn};
ghost use Rattle.ink.specs.Sheet.{sheet, drawn_on};

use meaning::counts::{Chars, Offset, Pixels};
use meaning::line::{Event, EventKind};
use table::events::put_event;

// How many events there are so far, and where the pen stands. What room it has is no ghost field: each event takes of it, so that no
// bound which a pen has is the next pen's too.
#[derive(Clone, Copy)]
pub struct Pen {
    pub next: usize,
    pub x: Pixels,
}

// One more event, of bytes of the text.
pub fn put_one(
    events: &mut [u32],
    pen: Pen,
    kind: EventKind,
    from: usize,
    to: usize,
    count: u32,
    width: u32,
) -> Pen
    requires { (pen.next ≤ 1000000000) × (pen.x.0 + width < 4294967296) × (from ≤ 65535) × (to ≤ 65535) }
    ensures { sheet events.new result ≡ drawn_on (sheet events.old pen) (drawn kind from to count width ∷ []) }
{
    let e = Event {
        kind,
        start: Offset(from as u32),
        end: Offset(to as u32),
        count: Chars(count),
        width: Pixels(width),
        x: pen.x,
    };
    put_event(events, pen.next, e);
    Pen {
        next: pen.next + 1,
        x: Pixels(pen.x.0 + width),
    }
}
