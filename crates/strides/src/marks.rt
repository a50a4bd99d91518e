// Soft hyphens that do not show, each with the word behind it, and zero width spaces, in a line that is not empty. It stands for rule 7
// and rule 8 of their tokens (`MarkLaws.joined-onward`, `MarkLaws.zeros_onward`), and saves their steps and looks ahead.
ghost use Rattle.std.specs.Prelude.{◌≡◌, true};
ghost use Rattle.strides.specs.Next.{DecideReady};
ghost use Rattle.strides.specs.Marks.{JoinedIs, Zeros, Idle};

use meaning::cursor::Place;
use meaning::settings::Settings;
use moves::cursor::room;
use parser::ascii::plain_at;
use parser::marks::{hyphen_at, zero_at};
use parser::scan::{Scanned, scan_word};
use steps::words::word_place;

// The word behind a soft hyphen, and the place after it.
#[derive(Clone, Copy)]
pub struct Joined {
    pub word: Scanned,
    pub place: Place,
}

// A soft hyphen, a word and a soft hyphen again, if there is room for the word and a "-".
pub fn next_joined(text: &[u8], s: Settings, p: Place, at: usize) -> Option<Joined>
    requires { DecideReady s p text.now at }
    ensures { JoinedIs s p text.now at result }
{
    if !hyphen_at(text, at) {
        return None;
    }
    let from = at + 2;
    if !plain_at(text, from) {
        return None;
    }
    let word = scan_word(text, from + 1, 0);
    if !hyphen_at(text, word.end.0 as usize) {
        return None;
    }
    if room(p.cursor) < word.chars.0 * s.glyph.0 + s.glyph.0 {
        return None;
    }
    let place = word_place(s.glyph, p, word.chars, word.weight);
    Some(Joined { word, place })
}

// Whether two zero width spaces stand at a position: the first of them does nothing.
pub fn two_zeros(text: &[u8], at: usize) -> bool
    ensures { result ≡ true → Zeros text.now at }
{
    if !zero_at(text, at) {
        return false;
    }
    zero_at(text, at + 3)
}

// The last of the zero width spaces that stand at a position.
pub fn last_zero(text: &[u8], from: usize) -> usize
    ensures { Idle text.now from result }
{
    let mut at = from;
    // No `for`: how many there are is what the text tells.
    while two_zeros(text, at) {
        at += 3;
    }
    at
}
