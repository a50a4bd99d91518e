// The events of a line that is the first part of a word too wide for it (rule 8, rule 13).
ghost use Rattle.std.specs.Prelude.{◌+◌, ◌≡◌, length};
ghost use Rattle.steps.specs.Unrolled.{nothing_resumed};
ghost use Rattle.table.specs.Numbers.{put_events};
ghost use Rattle.drawing.specs.Drawn.{drawn_from, events_from};
ghost use Rattle.drawing.specs.PassDrawn.{DrawRoom};
ghost use Rattle.drawing.specs.PlainDrawn.{plain_start};
ghost use Rattle.drawing.specs.CutDrawn.{CutToDraw};

use ink::pen::{Pen, put_one};
use ink::words::draw_word;
use meaning::counts::Pixels;
use meaning::cursor::Spaces;
use meaning::line::EventKind;
use meaning::settings::Settings;

// The part of so many characters from an offset to another, from the line's left x on, of a word in which no more characters glue than
// that: events number k and on. How many there are with those before. Where none glues, the part is one print.
pub fn draw_part(
    text: &[u8],
    s: Settings,
    at: usize,
    next: usize,
    most: u32,
    gluing: u32,
    x: u32,
    events: &mut [u32],
    k: usize,
) -> usize
    requires { DrawRoom s (plain_start s x) text.now at nothing_resumed x k × CutToDraw s text.now at next most gluing x }
    ensures events_after { events.new ≡ put_events events.old k (events_from s (plain_start s x) text.now at 0 0 x) }
    ensures value { result ≡ k + length (drawn_from s (plain_start s x) text.now at 0 0) }
{
    let pen = Pen {
        next: k,
        x: Pixels(x),
    };
    if gluing == 0 {
        let width = most * s.glyph.0;
        let last = put_one(events, pen, EventKind::Printed, at, next, 0, width);
        return last.next;
    }
    let spaces = Spaces {
        width: s.glyph,
        extra: Pixels(0),
    };
    let last = draw_word(text, at, most, s.glyph.0, spaces, pen, events);
    last.next
}
