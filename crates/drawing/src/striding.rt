// Words that fit, drawn in strides of a space and a word, as a measuring pass takes them (strides/src/strides.rt): what is drawn from
// there on makes the same sheet (`DrawingOn.Drew`).
// Rule 8, rule 13.
ghost use Rattle.std.specs.Prelude.{◌≡◌, false};
ghost use Rattle.steps.specs.Unrolled.{nothing_resumed};
ghost use Rattle.steps.specs.Foreseeing.{ForeseesFrom};
ghost use Rattle.drawing.specs.DrawingOn.{PenReady, Strode};

use crate::inked::{Inked, inked_at};
use crate::taken::draw_taken;
use ink::pen::{Pen, put_one};
use meaning::cursor::Place;
use meaning::line::EventKind;
use meaning::settings::Settings;
use pairs::pair::pair_at;
use steps::foreseen::Look;
use steps::step::Resumed;
use strides::first::{Begun, first_taken};
use strides::going::is_free;
use strides::next::{Next, next_pair, next_stride};

// As many plain words as fit, in a line that is not empty.
fn draw_strides(
    text: &[u8],
    s: Settings,
    p: Place,
    from: usize,
    start: Pen,
    events: &mut [u32],
) -> Inked
    requires { PenReady s p text.now from nothing_resumed start × (p.empty ≡ false) }
    ensures strode { Strode s text.now nothing_resumed events.old p from start events.new result }
    ensures empty_value { result.place.empty ≡ false }
{
    let mut place = p;
    let mut at = from;
    let mut pen = start;
    loop {
        match next_stride(text, s, place, at) {
            Next::Nothing => {
                return inked_at(place, at, pen);
            }
            Next::TooWide(waits) => {
                return Inked {
                    place,
                    at,
                    pen,
                    waits,
                };
            }
            Next::Fits(t) => {
                pen = draw_taken(text, s, place, at, t, pen, events);
                place = t.place;
                at = t.word.end.0 as usize;
            }
        }
    }
}

// The plain word that a line may stand at, if it fits.
fn draw_first(text: &[u8], s: Settings, p: Place, at: usize, pen: Pen, events: &mut [u32]) -> Inked
    requires { PenReady s p text.now at nothing_resumed pen }
    ensures { Strode s text.now nothing_resumed events.old p at pen events.new result }
{
    match first_taken(text, s, p, at) {
        None => inked_at(p, at, pen),
        Some(b) => {
            let end = b.end.0 as usize;
            let wide = b.chars.0 * s.glyph.0;
            let printed = put_one(events, pen, EventKind::Printed, at, end, 0, wide);
            inked_at(b.place, end, printed)
        }
    }
}

// Words as far as they fit: plain ones in strides, others behind one space by themselves.
fn draw_words(text: &[u8], s: Settings, p: Place, at: usize, pen: Pen, events: &mut [u32]) -> Inked
    requires { PenReady s p text.now at nothing_resumed pen }
    ensures { Strode s text.now nothing_resumed events.old p at pen events.new result }
{
    let mut g = draw_first(text, s, p, at, pen, events);
    let first = g.place;
    if first.empty {
        return g;
    }
    loop {
        let here = g.place;
        let printed = g.pen;
        let far = draw_strides(text, s, here, g.at, printed, events);
        if far.waits.next.0 != 0 {
            return far;
        }
        let there = far.place;
        let before = far.pen;
        let to = far.at;
        let pair = pair_at(text, to);
        match next_pair(text, s, there, to, pair) {
            Next::Nothing => {
                return far;
            }
            Next::TooWide(waits) => {
                return Inked {
                    place: there,
                    at: to,
                    pen: before,
                    waits,
                };
            }
            Next::Fits(t) => {
                let after = draw_taken(text, s, there, to, t, before, events);
                g = inked_at(t.place, t.word.end.0 as usize, after);
            }
        }
    }
}

// The same where a rest may be resumed or a look be known: then it stays where it stands.
pub fn draw_unless(
    text: &[u8],
    s: Settings,
    g: Inked,
    rest: Resumed,
    seen: Option<Look>,
    events: &mut [u32],
) -> Inked
    requires { PenReady s g.place text.now g.at rest g.pen × ForeseesFrom s g.place text.now g.at rest seen }
    ensures strode { Strode s text.now rest events.old g.place g.at g.pen events.new result }
    ensures foresees_from { ForeseesFrom s result.place text.now result.at rest seen }
{
    if is_free(rest, seen) {
        return draw_words(text, s, g.place, g.at, g.pen, events);
    }
    inked_at(g.place, g.at, g.pen)
}
