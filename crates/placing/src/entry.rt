// The entry of a laid line (rule 12).
ghost use Rattle.std.specs.Prelude.{◌≡◌};
ghost use Rattle.placing.specs.Laying.{rest_in, laid_at};

use meaning::counts::{Chars, Offset, Pixels};
use meaning::line::{Entry, LineEnd, Placed, Rest};
use steps::step::{Ended, Resumed};

// What an entry says of the rest that its line resumes.
pub fn rest_in(r: Resumed) -> Rest
    ensures { result ≡ rest_in r }
{
    if r.chars.0 == 0 {
        return Rest {
            end: Offset(0),
            count: Chars(0),
        };
    }
    Rest {
        end: r.end,
        count: r.count,
    }
}

// The entry of a line at an offset, behind so many characters, from its placing, its width, how far the measuring looked, and how the drawing ended.
pub fn entry_at(
    at: Offset,
    before: Chars,
    rest: Resumed,
    p: Placed,
    width: Pixels,
    looked: Offset,
    e: Ended,
) -> Entry
    ensures { result ≡ (laid_at at.0 before.0 rest p width.0 looked.0 e 0).entry }
{
    let ending = u32::from(e.ended);
    let resumed = rest_in(rest);
    let space = p.spaces.width;
    let reach = looked.0.max(e.reach.0);
    Entry {
        start: at,
        rest: resumed,
        ending,
        left: p.left,
        space,
        extra: p.spaces.extra,
        width,
        dropped: e.dropped,
        reach: Offset(reach),
        before,
    }
}
