// Soft hyphens that do not show, each with the word behind it, and zero width spaces, drawn as a measuring pass takes them
// (strides/src/marks.rt).
// Rule 8, rule 13.
ghost use Rattle.std.specs.Prelude.{◌+◌, ◌≡◌, false};
ghost use Rattle.steps.specs.Unrolled.{nothing_resumed};
ghost use Rattle.steps.specs.Foreseeing.{ForeseesFrom};
ghost use Rattle.strides.specs.Marks.{Zeros};
ghost use Rattle.drawing.specs.DrawingOn.{PenReady, Drew, Strode};

use crate::inked::{Inked, inked_at};
use crate::taken::draw_scanned;
use ink::pen::{Pen, put_one};
use meaning::cursor::Place;
use meaning::line::EventKind;
use meaning::settings::Settings;
use parser::marks::{MarkChar, mark_at};
use steps::foreseen::Look;
use steps::step::Resumed;
use strides::going::is_free;
use strides::marks::{next_joined, two_zeros};

// The first of two zero width spaces.
fn draw_zero(text: &[u8], s: Settings, p: Place, at: usize, pen: Pen, events: &mut [u32]) -> Pen
    requires { PenReady s p text.now at nothing_resumed pen × (p.empty ≡ false) × Zeros text.now at }
    ensures { Drew s text.now nothing_resumed events.old p at pen events.new p (at + 3) result }
{
    put_one(events, pen, EventKind::Space, at, at + 3, 0, 0)
}

// Zero width spaces but for the last.
fn draw_zeros(
    text: &[u8],
    s: Settings,
    p: Place,
    from: usize,
    start: Pen,
    events: &mut [u32],
) -> Inked
    requires { PenReady s p text.now from nothing_resumed start × (p.empty ≡ false) }
    ensures strode { Strode s text.now nothing_resumed events.old p from start events.new result }
    ensures empty_value { result.place.empty ≡ false }
{
    let mut at = from;
    let mut pen = start;
    // No `for`: how many there are is what the text tells.
    while two_zeros(text, at) {
        pen = draw_zero(text, s, p, at, pen, events);
        at += 3;
    }
    inked_at(p, at, pen)
}

// Soft hyphens that do not show, each with the word behind it, and then zero width spaces.
fn draw_marks(
    text: &[u8],
    s: Settings,
    start: Place,
    from: usize,
    first: Pen,
    events: &mut [u32],
) -> Inked
    requires { PenReady s start text.now from nothing_resumed first × (start.empty ≡ false) }
    ensures strode { Strode s text.now nothing_resumed events.old start from first events.new result }
    ensures empty_value { result.place.empty ≡ false }
{
    let mut p = start;
    let mut at = from;
    let mut pen = first;
    loop {
        match next_joined(text, s, p, at) {
            None => {
                return draw_zeros(text, s, p, at, pen, events);
            }
            Some(joined) => {
                pen = draw_scanned(text, at + 2, joined.word, s.glyph.0, p.spaces, pen, events);
                at = joined.word.end.0 as usize;
                p = joined.place;
            }
        }
    }
}

// The same where a rest may be resumed or a look be known: then it stays where it stands.
pub fn draw_past(
    text: &[u8],
    s: Settings,
    g: Inked,
    rest: Resumed,
    seen: Option<Look>,
    events: &mut [u32],
) -> Inked
    requires { PenReady s g.place text.now g.at rest g.pen × ForeseesFrom s g.place text.now g.at rest seen }
    ensures strode { Strode s text.now rest events.old g.place g.at g.pen events.new result }
    ensures foresees_from { ForeseesFrom s result.place text.now result.at rest seen }
{
    if g.place.empty || !is_free(rest, seen) {
        return inked_at(g.place, g.at, g.pen);
    }
    if let None | Some(MarkChar::Tab) = mark_at(text, g.at) {
        return inked_at(g.place, g.at, g.pen);
    }
    draw_marks(text, s, g.place, g.at, g.pen, events)
}
