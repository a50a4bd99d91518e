// The events of a line: the running pass again, token by token or in strides, each drawn (rule 7, rule 8, rule 9 and rule 13).
ghost use Rattle.std.specs.Prelude.{◌+◌, ◌≡◌, length};
ghost use Rattle.steps.specs.Knowing.{KnownFits};
ghost use Rattle.table.specs.Numbers.{put_events};
ghost use Rattle.drawing.specs.Drawn.{drawn_from, events_from};
ghost use Rattle.drawing.specs.PassDrawn.{DrawRoom};
ghost use Rattle.drawing.specs.DrawingOn.{PenReady};
ghost use Rattle.ink.specs.Sheet.{sheet, drawn_on};

use crate::inked::{Inked, inked_at};
use crate::lone::{draw_lone, is_lone};
use crate::marks::draw_past;
use crate::past::past_token;
use crate::resumed::{draw_rest, is_cut_rest};
use crate::striding::draw_unless;
use crate::waiting::draw_waiting;
use blanks::ahead::look_after;
use ink::pen::Pen;
use meaning::counts::Pixels;
use meaning::cursor::Place;
use meaning::settings::Settings;
use parser::lexeme::Lexeme;
use steps::ending::nothing_left;
use steps::first::{Known, first_token};
use steps::foreseen::Look;
use steps::step::Resumed;

// What a pass draws from where it stands on, token by token or in strides: see `draw_pass`.
fn draw_tokens(
    text: &[u8],
    s: Settings,
    start: Inked,
    rest: Resumed,
    known: Known,
    events: &mut [u32],
) -> Pen
    requires { PenReady s start.place text.now start.at rest start.pen × KnownFits text.now known }
    ensures { sheet events.new result ≡ drawn_on (sheet events.old start.pen) (drawn_from s start.place text.now start.at rest.chars.0 rest.count.0) }
{
    let mut on = start;
    let mut held = rest;
    let mut seen = None;
    loop {
        let g = draw_unless(text, s, on, held, seen, events);
        if g.waits.next.0 != 0 {
            return draw_waiting(text, s, g, events);
        }
        if is_lone(text, s, g.place, g.at, held) {
            return draw_lone(text, s, g, held, events);
        }
        let far = draw_past(text, s, g, held, seen, events);
        if far.at != g.at {
            on = far;
            continue;
        }
        let Some(t) = first_token(text, far.at, held, known) else {
            return far.pen;
        };
        let ahead = look_after(text, s, far.place, far.at, t, seen);
        let past = past_token(text, s, far.place, far.at, t, ahead, far.pen, events);
        let Some(beyond) = past.place else {
            return past.pen;
        };
        on = inked_at(beyond, t.end.0 as usize, past.pen);
        held = nothing_left();
        seen = ahead;
    }
}

// What a pass draws from a place and an offset on, after a resumed rest, where a word may be known: events number k and on, from
// the pen at x. How many there are with those before.
pub fn draw_pass(
    text: &[u8],
    s: Settings,
    start: Place,
    from: usize,
    rest: Resumed,
    known: Known,
    x: u32,
    events: &mut [u32],
    k: usize,
) -> usize
    requires { DrawRoom s start text.now from rest x k × KnownFits text.now known }
    ensures events_after { events.new ≡ put_events events.old k (events_from s start text.now from rest.chars.0 rest.count.0 x) }
    ensures value { result ≡ k + length (drawn_from s start text.now from rest.chars.0 rest.count.0) }
{
    let pen = Pen {
        next: k,
        x: Pixels(x),
    };
    if is_cut_rest(s, start, from, rest) {
        let last = draw_rest(text, s, start, from, rest, pen, events);
        return last.next;
    }
    let first = inked_at(start, from, pen);
    let last = draw_tokens(text, s, first, rest, known, events);
    last.next
}
