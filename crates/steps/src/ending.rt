// A line that ends with nothing left of a run (rule 8 and rule 9).
ghost use Rattle.std.specs.Prelude.{◌≡◌};
ghost use Rattle.steps.specs.Unrolled.{nothing_resumed};
ghost use Rattle.steps.specs.Stopping.{ends_before};

use crate::step::{Ended, Resumed};
use meaning::counts::{Chars, Offset};
use meaning::line::{LineEnd, Measure};

// Nothing is left of a run.
pub fn nothing_left() -> Resumed
    ensures { result ≡ nothing_resumed }
{
    Resumed {
        end: Offset(0),
        chars: Chars(0),
        count: Chars(0),
    }
}

// A line that ends before an offset, with nothing left of a run.
pub fn ends_before(
    ended: LineEnd,
    measure: Measure,
    next: Offset,
    dropped: Chars,
    reach: Offset,
) -> Ended
    ensures { result ≡ ends_before ended measure next.0 dropped.0 reach.0 }
{
    let rest = nothing_left();
    Ended {
        ended,
        measure,
        next,
        rest,
        dropped,
        reach,
    }
}
