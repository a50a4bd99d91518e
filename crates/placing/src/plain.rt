// A line of plain words before a word that waits, and the entry of a line that is found (rule 6, rule 10, rule 12).
ghost use Rattle.std.specs.Prelude.{◌*◌, ◌≤◌, ◌≡◌, length, IfSome};
ghost use Rattle.placing.specs.Plain.{left_of, ended_entry, plain_entry, PlainRow};

use meaning::counts::{Chars, Offset, Pixels};
use meaning::line::{Entry, LineEnd, Rest};
use meaning::settings::Settings;
use pairs::plain_line::{FoundLine, plain_line};

// The line at an offset of a text, in a box that holds so many characters, if its bytes tell that it is such a line.
pub fn plain_row(text: &[u8], at: usize, most: u32) -> Option<FoundLine>
    requires { (length text.now ≤ 65535) × (at ≤ length text.now) × (most ≤ 4096) }
    ensures { IfSome result (λ x. PlainRow text.now at most x.end.0 x.reach.0) }
{
    plain_line(text, at, most)
}

// The left of a line that leaves so much room, where none of it is shared out among its spaces.
fn left_of(alignment: u32, room: u32) -> u32
    requires { room ≤ 4096 }
    ensures { result ≡ left_of alignment room }
{
    if alignment == 0 {
        return 0;
    }
    if alignment == 1 {
        return (room + 1) / 2;
    }
    room
}

// The entry of a line of so many characters that ends so.
pub fn ended_entry(
    s: Settings,
    start: Offset,
    columns: u32,
    reach: Offset,
    before: Chars,
    ended: LineEnd,
) -> Entry
    requires { (columns * s.glyph.0 ≤ s.width.0) × (s.width.0 ≤ 4096) }
    ensures { result ≡ ended_entry ended s start.0 columns reach.0 before.0 }
{
    let wide = columns * s.glyph.0;
    let left = left_of(s.alignment, s.width.0 - wide);
    let ending = u32::from(ended);
    let rest = Rest {
        end: Offset(0),
        count: Chars(0),
    };
    Entry {
        start,
        rest,
        ending,
        left: Pixels(left),
        space: s.glyph,
        extra: Pixels(0),
        width: Pixels(wide),
        dropped: Chars(0),
        reach,
        before,
    }
}

// The entry of one that ends before a word.
pub fn plain_entry(s: Settings, start: Offset, columns: u32, reach: Offset, before: Chars) -> Entry
    requires { (columns * s.glyph.0 ≤ s.width.0) × (s.width.0 ≤ 4096) }
    ensures { result ≡ plain_entry s start.0 columns reach.0 before.0 }
{
    ended_entry(s, start, columns, reach, before, LineEnd::LineBreak)
}
