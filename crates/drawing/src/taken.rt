// One space and the word behind it, drawn as they were taken (rule 8, rule 13).
ghost use Rattle.std.specs.Prelude.{◌≡◌, take, Some};
ghost use Rattle.meaning.specs.Tokens.{tokens};
ghost use Rattle.meaning.specs.Words.{drawn_word};
ghost use Rattle.parser.specs.Lexing.{chars_from, lexed_at};
ghost use Rattle.parser.specs.Scanning.{word_of};
ghost use Rattle.steps.specs.Unrolled.{nothing_resumed};
ghost use Rattle.ink.specs.Sheet.{sheet, drawn_on};
ghost use Rattle.ink.specs.Stretching.{WordRoom};
ghost use Rattle.strides.specs.Next.{Taking};
ghost use Rattle.drawing.specs.DrawingOn.{PenReady, Drew};

use ink::pen::{Pen, put_one};
use ink::words::draw_word;
use meaning::cursor::{Place, Spaces};
use meaning::line::EventKind;
use meaning::settings::Settings;
use parser::scan::Scanned;
use strides::next::Taken;

// A word that fits: one print, unless there are gluing characters in it.
pub fn draw_scanned(
    text: &[u8],
    from: usize,
    word: Scanned,
    glyph: u32,
    spaces: Spaces,
    pen: Pen,
    events: &mut [u32],
) -> Pen
    requires { WordRoom text.now from word.chars.0 glyph spaces pen × (lexed_at from (tokens (chars_from text.now from)) ≡ Some (word_of word)) }
    ensures { sheet events.new result ≡ drawn_on (sheet events.old pen) (drawn_word glyph spaces from (take word.chars.0 (chars_from text.now from))) }
{
    let n = word.chars.0;
    if word.weight.0 == 0 {
        return put_one(
            events,
            pen,
            EventKind::Printed,
            from,
            word.end.0 as usize,
            0,
            n * glyph,
        );
    }
    draw_word(text, from, n, glyph, spaces, pen, events)
}

// Both, as they were decided on (strides/src/next.rt).
pub fn draw_taken(
    text: &[u8],
    s: Settings,
    p: Place,
    at: usize,
    t: Taken,
    pen: Pen,
    events: &mut [u32],
) -> Pen
    requires { PenReady s p text.now at nothing_resumed pen × Taking s p text.now at t }
    ensures { Drew s text.now nothing_resumed events.old p at pen events.new t.place t.word.end.0 result }
{
    let from = t.from.0 as usize;
    let spaced = put_one(events, pen, EventKind::Space, at, from, 1, t.space.0);
    draw_scanned(text, from, t.word, s.glyph.0, t.left, spaced, events)
}
