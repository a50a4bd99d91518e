// What was measured so far (rule 10).
ghost use Rattle.std.specs.Prelude.{◌+◌, ◌<◌, ◌≡◌};
ghost use Rattle.meaning.specs.Line.{noted, unmeasured};
ghost use Rattle.meaning.specs.declared.line.EventKind.TheVariants.{Space, Printed};
ghost use Rattle.laws.specs.Measuring.{printed_at};

use meaning::counts::{Chars, Pixels};
use meaning::line::Measure;

// Nothing is drawn yet.
pub fn nothing_measured() -> Measure
    ensures { result ≡ unmeasured }
{
    Measure {
        pen: Pixels(0),
        spaces: Chars(0),
        width: Pixels(0),
        count: Chars(0),
    }
}

// Just after a print.
pub fn printed_at(pen: Pixels, spaces: Chars) -> Measure
    ensures { result ≡ printed_at pen.0 spaces.0 }
{
    Measure {
        pen,
        spaces,
        width: pen,
        count: spaces,
    }
}

// Spaces or a move: the pen and the spaces counted grow.
pub fn noted_space(m: Measure, count: Chars, width: Pixels) -> Measure
    requires { (m.pen.0 + width.0 < 4294967296) × (m.spaces.0 + count.0 < 4294967296) }
    ensures { result ≡ noted Space (m.pen.0 + width.0) (m.spaces.0 + count.0) m }
{
    Measure {
        pen: Pixels(m.pen.0 + width.0),
        spaces: Chars(m.spaces.0 + count.0),
        ..m
    }
}

// A print, which counts no space: width and count become the pen and the spaces.
pub fn noted_print(m: Measure, width: Pixels) -> Measure
    requires { m.pen.0 + width.0 < 4294967296 }
    ensures { result ≡ noted Printed (m.pen.0 + width.0) (m.spaces.0 + 0) m }
{
    let pen = Pixels(m.pen.0 + width.0);
    Measure {
        pen,
        width: pen,
        count: m.spaces,
        ..m
    }
}
