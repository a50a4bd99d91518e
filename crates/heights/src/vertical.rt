// Rule 11: where a text so high stands in its box, and whether a line shows.
ghost use Rattle.std.specs.Prelude.{◌≤◌, ◌≡◌};
ghost use Rattle.meaning.specs.Height.{offset_of, shows_at};
ghost use Rattle.heights.specs.GoodSettings.{Measures};
ghost use Rattle.heights.specs.Heights.{shown_at};

use meaning::answers::LineY;
use meaning::settings::Settings;

// The vertical offset of a text so high. `/` rounds toward zero.
pub fn offset_of(s: Settings, high: u32) -> i32
    requires { Measures s × (high ≤ 1000000000) }
    ensures { result ≡ offset_of s high }
{
    if s.vertical == 0 {
        return 0;
    }
    let difference = s.height.0 as i32 - high as i32;
    if s.vertical == 1 {
        return difference / 2;
    }
    difference
}

fn shows(s: Settings, y: i32) -> bool
    requires { Measures s }
    ensures { result ≡ shows_at s y }
{
    let lowest = s.top + s.height.0 as i32 - s.base.0 as i32;
    (s.top <= y) & (y <= lowest)
}

// A line at y, and whether it shows.
pub fn shown_at(s: Settings, y: i32) -> LineY
    requires { Measures s }
    ensures { result ≡ shown_at s y }
{
    LineY {
        y,
        shows: shows(s, y),
    }
}
