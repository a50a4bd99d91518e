// Where a pass starts, and where it stands after white space (rule 4, rule 5, rule 6 and rule 8).
ghost use Rattle.std.specs.Prelude.{◌+◌, ◌<◌, ◌≡◌};
ghost use Rattle.meaning.specs.LineIter.{skips, moved_on, used_up};
ghost use Rattle.meaning.specs.Line.{start_place};

use crate::cursor::advanced;
use crate::space_config::spaces_after;
use meaning::counts::Pixels;
use meaning::cursor::{LineCursor, Place, Spaces};
use meaning::settings::Settings;

// Where a pass starts: at an offset from the box's left, on an empty line.
pub fn start_place(s: Settings, left: Pixels, spaces: Spaces) -> Place
    ensures { result ≡ start_place s left.0 spaces }
{
    Place {
        cursor: LineCursor {
            width: s.width,
            position: left,
            tab: s.tab,
            start: left,
        },
        spaces,
        empty: true,
    }
}

// Leading white space is skipped where the setting is off and the line still empty.
pub fn skips_space(s: Settings, p: Place) -> bool
    ensures { result ≡ skips s p }
{
    p.empty && s.leading != 1
}

// The same place with its cursor further on.
pub fn moved_on(p: Place, w: u32) -> Place
    requires { p.cursor.position.0 + w < 4294967296 }
    ensures { result ≡ moved_on p w }
{
    Place {
        cursor: advanced(p.cursor, w),
        ..p
    }
}

// The same place with n spaces used up.
pub fn used_up(p: Place, n: u32) -> Place
    ensures { result ≡ used_up p n }
{
    Place {
        spaces: spaces_after(p.spaces, n),
        ..p
    }
}
