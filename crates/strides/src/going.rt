// Where a pass stands between two tokens, and what waits there for the next line (rule 8).
ghost use Rattle.std.specs.Prelude.{◌≡◌, ◌≤◌, true, None};
ghost use Rattle.strides.specs.Strides.{waiting_at, going_at, strode_place};

use meaning::counts::{Offset, Pixels};
use meaning::cursor::{LineCursor, Place, Spaces};
use meaning::line::Measure;
use steps::foreseen::Look;
use steps::step::Resumed;

// A word behind one space that does not fit: where it starts, how far the space was looked at, and how far the word was.
// A start of 0, which no word behind a space has: nothing waits. It is no enum, which was counted: drawing then takes half a
// hundredth more.
#[derive(Clone, Copy)]
pub struct Waiting {
    pub next: Offset,
    pub looked: Offset,
    pub reach: Offset,
}

#[derive(Clone, Copy)]
pub struct Going {
    pub place: Place,
    pub measure: Measure,
    pub at: Offset,
    pub waits: Waiting,
}

// Whether nothing is left to resume and no look is known: else a pass stays where it stands, and takes no strides.
pub fn is_free(rest: Resumed, seen: Option<Look>) -> bool
    ensures { result ≡ true → (rest.chars.0 ≡ 0) × (seen ≡ None) }
{
    seen.is_none() && rest.chars.0 == 0
}

pub fn nothing_waits() -> Waiting
    ensures { result ≡ waiting_at 0 0 0 }
{
    Waiting {
        next: Offset(0),
        looked: Offset(0),
        reach: Offset(0),
    }
}

pub fn stands_at(p: Place, m: Measure, at: usize, waits: Waiting) -> Going
    requires { at ≤ 65535 }
    ensures { result ≡ going_at p m at waits }
{
    Going {
        place: p,
        measure: m,
        at: Offset(at as u32),
        waits,
    }
}

// The same place after a word, with its cursor and its extra pixels elsewhere.
pub fn strode(p: Place, position: u32, extra: u32) -> Place
    ensures { result ≡ strode_place p position extra }
{
    let before = p.cursor;
    let each = p.spaces.width;
    Place {
        cursor: LineCursor {
            width: before.width,
            position: Pixels(position),
            tab: before.tab,
            start: before.start,
        },
        spaces: Spaces {
            width: each,
            extra: Pixels(extra),
        },
        empty: false,
    }
}
