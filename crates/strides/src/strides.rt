// Words that fit, measured in strides of a space and a word: how far a pass comes so is decided in next.rt and first.rt, and what
// is left of the pass from there is the whole pass (`Strides.Onward`).
// Rule 8.
ghost use Rattle.std.specs.Prelude.{◌≡◌, false};
ghost use Rattle.steps.specs.Unrolled.{nothing_resumed};
ghost use Rattle.steps.specs.Running.{PassReady};
ghost use Rattle.steps.specs.Foreseeing.{ForeseesFrom};
ghost use Rattle.strides.specs.Strides.{Goes};
ghost use Rattle.strides.specs.Next.{taken_measure, MeasureReady};

use crate::first::{Begun, first_taken};
use crate::going::{Going, is_free, nothing_waits, stands_at};
use crate::marks::{last_zero, next_joined};
use crate::next::{Next, Taken, next_pair};
use meaning::counts::{Chars, Pixels};
use meaning::cursor::Place;
use meaning::line::Measure;
use meaning::settings::Settings;
use moves::measure::printed_at;
use pairs::pair::pair_at;
use steps::foreseen::Look;
use steps::step::Resumed;
use steps::words::word_measure;

// What is measured after a space and a word.
fn measure_taken(s: Settings, m: Measure, t: Taken) -> Measure
    requires { MeasureReady s m t }
    ensures { result ≡ taken_measure s m t }
{
    let glues = t.word.weight;
    let pen = m.pen.0 + t.space.0;
    let spaces = m.spaces.0 + 1;
    let spaced = printed_at(Pixels(pen), Chars(spaces));
    word_measure(s.glyph, t.left, spaced, t.word.chars, glues)
}

// The plain word that a pass may stand at, if it fits.
fn first_word(text: &[u8], s: Settings, p: Place, at: usize, m: Measure) -> Going
    requires { PassReady s p text.now at nothing_resumed m }
    ensures { Goes s p text.now at nothing_resumed m result }
{
    match first_taken(text, s, p, at) {
        None => stands_at(p, m, at, nothing_waits()),
        Some(b) => {
            let after = word_measure(s.glyph, p.spaces, m, b.chars, Chars(0));
            stands_at(b.place, after, b.end.0 as usize, nothing_waits())
        }
    }
}

// A soft hyphen that does not show and the word behind it, or else zero width spaces.
fn marks_on(text: &[u8], s: Settings, p: Place, at: usize, m: Measure) -> Going
    requires { PassReady s p text.now at nothing_resumed m × (p.empty ≡ false) }
    ensures goes { Goes s p text.now at nothing_resumed m result }
    ensures empty_value { result.place.empty ≡ false }
{
    match next_joined(text, s, p, at) {
        None => {
            let to = last_zero(text, at);
            stands_at(p, m, to, nothing_waits())
        }
        Some(joined) => {
            let after = word_measure(s.glyph, p.spaces, m, joined.word.chars, joined.word.weight);
            let to = joined.word.end.0 as usize;
            stands_at(joined.place, after, to, nothing_waits())
        }
    }
}

// Words as far as they fit, each behind one space, and what stands between them and does nothing.
fn words_on(text: &[u8], s: Settings, p: Place, at: usize, m: Measure) -> Going
    requires { PassReady s p text.now at nothing_resumed m }
    ensures { Goes s p text.now at nothing_resumed m result }
{
    let mut g = first_word(text, s, p, at, m);
    let first = g.place;
    if first.empty {
        return g;
    }
    loop {
        let here = g.place;
        let sum = g.measure;
        let to = g.at.0 as usize;
        let pair = pair_at(text, to);
        match next_pair(text, s, here, to, pair) {
            Next::Nothing => {
                let far = marks_on(text, s, here, to, sum);
                if far.at.0 == g.at.0 {
                    return far;
                }
                g = far;
            }
            Next::TooWide(w) => {
                return stands_at(here, sum, to, w);
            }
            Next::Fits(t) => {
                let after = measure_taken(s, sum, t);
                g = stands_at(t.place, after, t.word.end.0 as usize, nothing_waits());
            }
        }
    }
}

// The same where a rest may be resumed, or a look be known, which is kept for the white space that comes next.
pub fn strides_unless(
    text: &[u8],
    s: Settings,
    p: Place,
    at: usize,
    rest: Resumed,
    m: Measure,
    seen: Option<Look>,
) -> Going
    requires { PassReady s p text.now at rest m × ForeseesFrom s p text.now at rest seen }
    ensures goes { Goes s p text.now at rest m result }
    ensures foresees_from { ForeseesFrom s result.place text.now result.at.0 rest seen }
{
    if is_free(rest, seen) {
        return words_on(text, s, p, at, m);
    }
    stands_at(p, m, at, nothing_waits())
}
