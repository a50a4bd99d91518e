// One space and the word behind it, decided once for measuring and for drawing: both are taken if both fit, else the word waits
// for the next line. It stands for rule 7 and rule 8 of the two tokens (`NextLaws.taken-onward`, `Waits`), and saves the steps of
// both, and the look ahead of the space, which would read the word a second time.
ghost use Rattle.std.specs.Prelude.{◌≡◌, ◌+◌, ◌≤◌, IfSome};
ghost use Rattle.moves.specs.Fine.{FinePlace};
ghost use Rattle.strides.specs.Next.{Read, plain_pair, fitted_of, Decides, DecideReady};

use crate::going::{Waiting, strode};
use meaning::counts::{Chars, Offset, Pixels};
use meaning::cursor::{Place, Spaces};
use meaning::settings::Settings;
use moves::cursor::room;
use moves::space_config::{spaces_after, spaces_width};
use pairs::pair::{Pair, stride_end};
use parser::scan::Scanned;

// What is taken: where the word starts, the word, the space's width, what the space leaves of the extra pixels, and the place
// after both.
#[derive(Clone, Copy)]
pub struct Taken {
    pub from: Offset,
    pub word: Scanned,
    pub space: Pixels,
    pub left: Spaces,
    pub place: Place,
}

// What comes next where a pass stands in a line that is not empty. Nothing: no such pair stands there, or it is not
// told. Three outcomes, of which two bring what was read, so no `Option` and no `Result`.
#[derive(Clone, Copy)]
pub enum Next {
    Nothing,
    TooWide(Waiting),
    Fits(Taken),
}

// What becomes of a pair that was read.
fn fitted(s: Settings, p: Place, pair: Pair) -> Next
    requires { FinePlace p × (s.glyph.0 ≤ 64) × (pair.word.chars.0 ≤ 65535) }
    ensures { result ≡ fitted_of s p pair }
{
    let space = spaces_width(p.spaces, 1);
    let wide = space + pair.word.chars.0 * s.glyph.0;
    if room(p.cursor) < wide {
        return Next::TooWide(Waiting {
            next: pair.from,
            looked: pair.looked,
            reach: pair.word.reach,
        });
    }
    let left = spaces_after(p.spaces, 1);
    let more = spaces_after(left, pair.word.weight.0);
    let place = strode(p, p.cursor.position.0 + wide, more.extra.0);
    Next::Fits(Taken {
        from: pair.from,
        word: pair.word,
        space: Pixels(space),
        left,
        place,
    })
}

// One space, and a plain word behind it to an end.
fn plain_pair(at: usize, end: usize) -> Pair
    requires { (at + 1 ≤ end) × (end ≤ 65535) }
    ensures { result ≡ plain_pair at end }
{
    let from = at as u32 + 1;
    let to = end as u32;
    Pair {
        from: Offset(from),
        looked: Offset(from + 1),
        word: Scanned {
            end: Offset(to),
            chars: Chars(to - from),
            weight: Chars(0),
            reach: Offset(to + 1),
        },
    }
}

// Of a plain word: short enough to be compiled into the loops that ask it.
pub fn next_stride(text: &[u8], s: Settings, p: Place, at: usize) -> Next
    requires { DecideReady s p text.now at }
    ensures { Decides s p text.now at result }
{
    let Some(end) = stride_end(text, at) else {
        return Next::Nothing;
    };
    fitted(s, p, plain_pair(at, end))
}

// Of any word, in a pair as it was read. Where the pair is read, the loops say: a function that read it too would stand alone, and
// its answer would go through memory (counted).
pub fn next_pair(text: &[u8], s: Settings, p: Place, at: usize, read: Option<Pair>) -> Next
    requires { DecideReady s p text.now at × IfSome read (Read text.now at) }
    ensures { Decides s p text.now at result }
{
    let Some(pair) = read else {
        return Next::Nothing;
    };
    fitted(s, p, pair)
}
