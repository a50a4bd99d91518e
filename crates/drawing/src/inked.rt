// Where the drawing of a line stands between two tokens, and what waits there for the next line (rule 8, rule 13).
ghost use Rattle.std.specs.Prelude.{◌≡◌};
ghost use Rattle.drawing.specs.DrawingOn.{inked_at};

use ink::pen::Pen;
use meaning::cursor::Place;
use strides::going::{Waiting, nothing_waits};

#[derive(Clone, Copy)]
pub struct Inked {
    pub place: Place,
    pub at: usize,
    pub pen: Pen,
    pub waits: Waiting,
}

// Nothing waits there.
pub fn inked_at(place: Place, at: usize, pen: Pen) -> Inked
    ensures { result ≡ inked_at place at pen }
{
    let waits = nothing_waits();
    Inked {
        place,
        at,
        pen,
        waits,
    }
}
