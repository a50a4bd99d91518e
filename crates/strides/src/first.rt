// The plain word that a pass stands at, decided once for measuring and for drawing. It stands for rule 8 of a word that fits
// (`FirstLaws.first-onward`), and saves that word's step: no more of it is read than fits.
ghost use Rattle.meaning.specs.Line.{unmeasured};
ghost use Rattle.steps.specs.Running.{PassReady};
ghost use Rattle.steps.specs.Unrolled.{nothing_resumed};
ghost use Rattle.strides.specs.First.{FirstIs};

use meaning::counts::{Chars, Offset, Pixels};
use meaning::cursor::Place;
use meaning::settings::Settings;
use moves::cursor::room;
use pairs::within::word_within;
use parser::ascii::plain_at;
use steps::words::word_place;

// A word that fits: where it ends, its characters, and the place after it.
#[derive(Clone, Copy)]
pub struct Begun {
    pub end: Offset,
    pub chars: Chars,
    pub place: Place,
}

pub fn first_taken(text: &[u8], s: Settings, p: Place, at: usize) -> Option<Begun>
    requires { PassReady s p text.now at nothing_resumed unmeasured }
    ensures { FirstIs s p text.now at result }
{
    if plain_at(text, at) {
        let glyph = s.glyph.0;
        if let Some(end) = word_within(text, at, room(p.cursor) / glyph) {
            let n = (end - at) as u32;
            let to = end as u32;
            let place = word_place(Pixels(glyph), p, Chars(n), Chars(0));
            return Some(Begun {
                end: Offset(to),
                chars: Chars(n),
                place,
            });
        }
    }
    None
}
