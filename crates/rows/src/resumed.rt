// A line that resumes a rest too wide for it: both of its passes would cut the rest again, and neither is run (rule 9, rule 10).
ghost use Rattle.std.specs.Prelude.{◌≤◌, ◌≡◌, true};
ghost use Rattle.moves.specs.Fine.{FineSettings};
ghost use Rattle.blanks.specs.CutRests.{cut_end};
ghost use Rattle.placing.specs.Laying.{LineReady};
ghost use Rattle.rows.specs.Passing.{LaidBy};
ghost use Rattle.rows.specs.CutRests.{CutAgain, CutNumbers};

use crate::line::Passes;
use blanks::spaces::held_rest;
use meaning::counts::{Chars, Offset, Pixels};
use meaning::line::LineEnd;
use meaning::settings::Settings;
use moves::measure::{noted_space, nothing_measured};
use parser::scan::ender_at;
use placing::alignment::place_line;
use steps::step::{Ended, Resumed};

// Whether a rest is too wide for the box, is not skipped, and has characters of one byte alone.
pub fn is_cut_again(s: Settings, at: usize, rest: Resumed) -> bool
    requires { FineSettings s × (rest.count.0 ≤ 65535) × (rest.chars.0 ≤ 65535) × (at ≤ 65535) }
    ensures { result ≡ true → CutAgain s at rest }
{
    if rest.count.0 * s.glyph.0 <= s.width.0 {
        return false;
    }
    if s.leading != 1 {
        return false;
    }
    let end = at + rest.chars.0 as usize;
    rest.end.0 as usize == end
}

// How a pass ends that has so much room for such a rest: the spaces that fit count, and one more is taken.
fn cut_again(at: usize, rest: Resumed, fitting: u32, taken: u32, reach: u32) -> Ended
    requires { CutNumbers at rest fitting taken }
    ensures { result ≡ cut_end at rest fitting taken reach }
{
    let left = held_rest(rest.end, rest.chars, rest.count, taken);
    let measure = noted_space(nothing_measured(), Chars(fitting), Pixels(0));
    let next = at as u32 + taken;
    Ended {
        ended: LineEnd::LineBreak,
        measure,
        next: Offset(next),
        rest: left,
        dropped: Chars(0),
        reach: Offset(reach),
    }
}

// The line of such a rest: nothing is printed in it, so that it is placed as if it had no width.
pub fn lay_rest(text: &[u8], s: Settings, at: usize, rest: Resumed) -> Passes
    requires { LineReady s text.now at rest × CutAgain s at rest }
    ensures { LaidBy s text.now at rest result }
{
    let placed = place_line(s, LineEnd::LineBreak, Pixels(0), Chars(0));
    let ender = ender_at(text, rest.end.0 as usize);
    let reach = rest.end.0 + ender;
    let fitting = (s.width.0 - placed.left.0) / s.glyph.0;
    let taken = (fitting + 1).min(rest.count.0);
    let drawn = cut_again(at, rest, fitting, taken, reach);
    Passes {
        placed,
        width: Pixels(0),
        looked: Offset(reach),
        drawn,
        chars: Chars(taken),
    }
}
