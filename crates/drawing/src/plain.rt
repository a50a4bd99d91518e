// The events of a line of plain words that are placed with plain spaces: nothing is left to decide but where each word ends (rule 8,
// rule 13).
ghost use Rattle.std.specs.Prelude.{◌+◌, ◌≡◌, length};
ghost use Rattle.steps.specs.Unrolled.{nothing_resumed};
ghost use Rattle.table.specs.Numbers.{put_events};
ghost use Rattle.drawing.specs.Drawn.{drawn_from, events_from};
ghost use Rattle.drawing.specs.PassDrawn.{DrawRoom, pen_at};
ghost use Rattle.drawing.specs.PlainDrawn.{plain_start, PlainToDraw, DrewPlain};

use ink::pen::{Pen, put_one};
use meaning::counts::Pixels;
use meaning::line::EventKind;
use meaning::settings::Settings;
use pairs::word_end::word_end;

// All words of a line from its left x on, up to the space behind the last, and the spaces between them: events number k and on.
fn draw_plain_words(
    text: &[u8],
    s: Settings,
    at: usize,
    end: usize,
    x: u32,
    events: &mut [u32],
    k: usize,
) -> Pen
    requires { DrawRoom s (plain_start s x) text.now at nothing_resumed x k × PlainToDraw s text.now at end x }
    ensures { DrewPlain s text.now x at events.old (plain_start s x) at (pen_at k x) events.new end result }
{
    let start = Pen {
        next: k,
        x: Pixels(x),
    };
    let first = word_end(text, at);
    let letters = (first - at) as u32;
    let wide = letters * s.glyph.0;
    let mut pen = put_one(events, start, EventKind::Printed, at, first, 0, wide);
    let mut to = first;
    while to < end {
        let from = to + 1;
        let next = word_end(text, from);
        let chars = (next - from) as u32;
        let spaced = put_one(events, pen, EventKind::Space, to, from, 1, s.glyph.0);
        let width = chars * s.glyph.0;
        pen = put_one(events, spaced, EventKind::Printed, from, next, 0, width);
        to = next;
    }
    pen
}

// The events of such a line. How many there are with those before.
pub fn draw_plain(
    text: &[u8],
    s: Settings,
    at: usize,
    end: usize,
    x: u32,
    events: &mut [u32],
    k: usize,
) -> usize
    requires { DrawRoom s (plain_start s x) text.now at nothing_resumed x k × PlainToDraw s text.now at end x }
    ensures events_after { events.new ≡ put_events events.old k (events_from s (plain_start s x) text.now at 0 0 x) }
    ensures value { result ≡ k + length (drawn_from s (plain_start s x) text.now at 0 0) }
{
    let pen = draw_plain_words(text, s, at, end, x, events, k);
    let wide = pen.x.0 + s.glyph.0;
    if s.width.0 < wide {
        return pen.next;
    }
    let last = put_one(events, pen, EventKind::Space, end, end + 1, 1, 0);
    last.next
}
