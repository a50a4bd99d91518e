// Where a measured line is placed, and how wide its spaces are drawn (rule 6).
ghost use Rattle.std.specs.Prelude.{◌≤◌, ◌≡◌, ◌||◌, eqb};
ghost use Rattle.meaning.specs.Alignment.{plain_spaces, ends_paragraph, justified, place};
ghost use Rattle.moves.specs.Fine.{FineSettings};

use meaning::counts::{Chars, Pixels};
use meaning::cursor::Spaces;
use meaning::line::{LineEnd, Placed};
use meaning::settings::Settings;

// Spaces as wide as any character, none wider.
pub fn plain_spaces(s: Settings) -> Spaces
    ensures { result ≡ plain_spaces s }
{
    let width = s.glyph;
    Spaces {
        width,
        extra: Pixels(0),
    }
}

// A line that ends a paragraph is not justified, and neither is one without spaces.
fn stays_plain(ended: LineEnd, n: u32) -> bool
    ensures { result ≡ (ends_paragraph ended || eqb n 0) }
{
    match ended {
        LineEnd::NewLine => true,
        LineEnd::EndOfText => true,
        LineEnd::CarriageReturn => n == 0,
        LineEnd::LineBreak => n == 0,
    }
}

// The room that is left is shared out among the n counted spaces.
fn shared_out(s: Settings, room: u32, n: u32) -> Spaces
    requires { FineSettings s × (room ≤ 4096) × (1 ≤ n) × (n ≤ 65535) }
    ensures { result ≡ justified s room n }
{
    let all = room + n * s.glyph.0;
    Spaces {
        width: Pixels(all / n),
        extra: Pixels(all % n),
    }
}

// Where a measured line starts, and how wide its spaces are drawn.
pub fn place_line(s: Settings, ended: LineEnd, width: Pixels, n: Chars) -> Placed
    requires { FineSettings s × (n.0 ≤ 65535) }
    ensures { result ≡ place s ended width.0 n.0 }
{
    // What the line leaves of the box.
    let room = s.width.0.saturating_sub(width.0);
    let spaces = plain_spaces(s);
    if s.alignment == 0 {
        return Placed {
            left: Pixels(0),
            spaces,
        };
    }
    if s.alignment == 1 {
        return Placed {
            left: Pixels((room + 1) / 2),
            spaces,
        };
    }
    if s.alignment == 2 {
        return Placed {
            left: Pixels(room),
            spaces,
        };
    }
    if stays_plain(ended, n.0) {
        return Placed {
            left: Pixels(0),
            spaces,
        };
    }
    let wide = shared_out(s, room, n.0);
    Placed {
        left: Pixels(0),
        spaces: wide,
    }
}
