// A line of words with one space between any two, counted in characters: it is drawn as it was measured (rule 8, rule 10).
ghost use Rattle.std.specs.Prelude.{◌*◌, ◌≤◌, ◌<◌, ◌≡◌, length, IfSome};
ghost use Rattle.laws.specs.Measuring.{printed_at};
ghost use Rattle.pairs.specs.Within.{FirstWord};
ghost use Rattle.steps.specs.Unrolled.{nothing_resumed};
ghost use Rattle.placing.specs.Laying.{LineReady};
ghost use Rattle.steps.specs.Knowing.{KnownFits};
ghost use Rattle.strides.specs.Strides.{going_at};
ghost use Rattle.placing.specs.Quick.{plain_place, counted_at, CountedWords, QuickLine};

use crate::alignment::plain_spaces;
use crate::counting::count_on;
use crate::known::known_word;
use meaning::counts::{Chars, Offset, Pixels};
use meaning::line::LineEnd;
use meaning::settings::Settings;
use moves::measure::printed_at;
use moves::place::start_place;
use pairs::pair::plain_pair;
use pairs::within::{first_within, kept_within};
use parser::ascii::feed_at;
use parser::scan::Scanned;
use steps::ending::ends_before;
use steps::first::Known;
use steps::step::Ended;
use strides::going::{Going, Waiting, stands_at, strode};
use strides::waiting::ends_waiting;

// The words of such a line: where they end, their characters with those of the spaces between them, how many of these are
// spaces or glue, and the word that waits behind one more space, if one does.
#[derive(Clone, Copy)]
pub struct Counted {
    pub end: Offset,
    pub columns: Chars,
    pub spaces: Chars,
    pub waits: Waiting,
}

// How the passes of such a line end, and how many characters it takes.
#[derive(Clone, Copy)]
pub struct Quick {
    pub ended: Ended,
    pub taken: Chars,
}

pub fn counted_at(end: u32, columns: u32, spaces: u32, waits: Waiting) -> Counted
    ensures { result ≡ counted_at end columns spaces waits }
{
    Counted {
        end: Offset(end),
        columns: Chars(columns),
        spaces: Chars(spaces),
        waits,
    }
}

// The word at a position, if it has no more characters than that. A known word that has more is not looked at.
fn first_known(text: &[u8], at: usize, most: u32, known: Known) -> Option<Scanned>
    requires { (length text.now ≤ 65535) × (most ≤ 4096) × KnownFits text.now known }
    ensures { IfSome result (FirstWord text.now at most) }
{
    if let Some(x) = known_word(known, at) {
        return kept_within(x, most);
    }
    first_within(text, at, most)
}

// The words of a line as far as they fit, if it is such a line: plain ones first, and the others from the first that is none of these on.
fn count_words(text: &[u8], s: Settings, at: usize, known: Known) -> Option<Counted>
    requires { LineReady s text.now at nothing_resumed × KnownFits text.now known }
    ensures { IfSome result (CountedWords s text.now at) }
{
    let most = s.width.0 / s.glyph.0;
    let first = first_known(text, at, most, known)?;
    let mut end = first.end.0;
    let mut columns = first.chars.0;
    let mut spaces = first.weight.0;
    loop {
        let Some(pair) = plain_pair(text, end as usize) else {
            return Some(count_on(text, s, at, most, end, columns, spaces));
        };
        let next = pair.from;
        let n = pair.word.chars.0;
        if most - columns <= n {
            return Some(counted_at(
                end,
                columns,
                spaces,
                Waiting {
                    next,
                    looked: pair.looked,
                    reach: pair.word.reach,
                },
            ));
        }
        let g = pair.word.weight.0;
        columns += 1 + n;
        spaces += 1 + g;
        end = pair.word.end.0;
    }
}

// Where the measuring pass stands after so many characters.
fn measured_to(s: Settings, c: Counted) -> Going
    requires { (c.columns.0 * s.glyph.0 ≤ 4096) × (c.end.0 ≤ 65535) }
    ensures { result ≡ going_at (plain_place s (c.columns.0 * s.glyph.0)) (printed_at (c.columns.0 * s.glyph.0) c.spaces.0) c.end.0 c.waits }
{
    let wide = c.columns.0 * s.glyph.0;
    let start = start_place(s, Pixels(0), plain_spaces(s));
    stands_at(
        strode(start, wide, 0),
        printed_at(Pixels(wide), c.spaces),
        c.end.0 as usize,
        c.waits,
    )
}

// The line at an offset, if it is of words with one space between any two, and ended by a word that waits, a line feed or the
// text's end.
pub fn quick_line(text: &[u8], s: Settings, at: usize, known: Known) -> Option<Quick>
    requires { LineReady s text.now at nothing_resumed × KnownFits text.now known }
    ensures { QuickLine s text.now at result }
{
    let c = count_words(text, s, at, known)?;
    let g = measured_to(s, c);
    if g.waits.next.0 != 0 {
        let taken = c.columns.0 + 1;
        let ended = ends_waiting(text, s, g);
        return Some(Quick {
            ended,
            taken: Chars(taken),
        });
    }
    let m = g.measure;
    let end = g.at.0;
    if text.len() <= end as usize {
        let far = end + 1;
        let e = ends_before(LineEnd::EndOfText, m, Offset(end), Chars(0), Offset(far));
        return Some(Quick {
            ended: e,
            taken: Chars(c.columns.0),
        });
    }
    if feed_at(text, end as usize) {
        let next = end + 1;
        let taken = c.columns.0 + 1;
        let e = ends_before(LineEnd::NewLine, m, Offset(next), Chars(0), Offset(next));
        return Some(Quick {
            ended: e,
            taken: Chars(taken),
        });
    }
    None
}
