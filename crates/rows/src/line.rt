// A line is measured, placed and drawn (rule 10).
ghost use Rattle.std.specs.Prelude.{◌≤◌, ◌≡◌};
ghost use Rattle.moves.specs.Fine.{FineSettings, FineSpaces};
ghost use Rattle.steps.specs.Knowing.{KnownFits};
ghost use Rattle.placing.specs.LineFrom.{line_from};
ghost use Rattle.rows.specs.Standing.{is_last, row_of};
ghost use Rattle.rows.specs.Passing.{line_by, LaidBy};
ghost use Rattle.placing.specs.Laying.{LineReady, passed_from, plainly, as_measured, placed_by, laid_at};

use crate::hyphened::hyphened_pass;
use crate::pass::run_pass;
use crate::resumed::{is_cut_again, lay_rest};
use meaning::counts::{Chars, Offset, Pixels};
use meaning::line::{Entry, LineEnd, Placed};
use meaning::settings::Settings;
use moves::measure::nothing_measured;
use moves::place::start_place;
use placing::alignment::{place_line, plain_spaces};
use placing::cut::cut_line;
use placing::entry::entry_at;
use placing::quick::quick_line;
use placing::taken::chars_to;
use stands::row::LaidRow;
use steps::first::{Known, known_here};
use steps::step::{Ended, Resumed};

// How a line's passes came out: where they placed it, how wide it is, how far the measuring looked, how the drawing ended and how many
// characters it took. It is what goes through memory, so that a line of words, which has no pass, does not.
#[derive(Clone, Copy)]
pub struct Passes {
    pub placed: Placed,
    pub width: Pixels,
    pub looked: Offset,
    pub drawn: Ended,
    pub chars: Chars,
}

// Nothing follows the line that ends the text.
pub fn is_last(ended: LineEnd) -> bool
    ensures { result ≡ is_last ended }
{
    match ended {
        LineEnd::EndOfText => true,
        LineEnd::NewLine => false,
        LineEnd::CarriageReturn => false,
        LineEnd::LineBreak => false,
    }
}

// How a line is placed to be measured: at the box's left, with plain spaces.
fn placed_plainly(s: Settings) -> Placed
    ensures { result ≡ plainly s }
{
    let spaces = plain_spaces(s);
    Placed {
        left: Pixels(0),
        spaces,
    }
}

// Whether a line is placed as it was measured.
fn as_measured(s: Settings, p: Placed) -> bool
    ensures { result ≡ as_measured s p }
{
    if p.left.0 != 0 {
        return false;
    }
    if p.spaces.extra.0 != 0 {
        return false;
    }
    p.spaces.width.0 == s.glyph.0
}

// Where a line is placed whose measuring pass ended so.
fn placed_by(s: Settings, e: Ended) -> Placed
    requires { FineSettings s × (e.measure.count.0 ≤ 65535) }
    ensures { result ≡ placed_by s e }
{
    let m = e.measure;
    place_line(s, e.ended, m.width, m.count)
}

// The pass over a line that is so placed.
fn pass_over(text: &[u8], s: Settings, at: usize, rest: Resumed, p: Placed, known: Known) -> Ended
    requires { LineReady s text.now at rest × FineSpaces p.spaces × (p.left.0 ≤ s.width.0) × KnownFits text.now known }
    ensures { result ≡ passed_from s text.now at rest p }
{
    let start = start_place(s, p.left, p.spaces);
    if let Some(e) = hyphened_pass(text, s, start, at, rest) {
        return e;
    }
    run_pass(text, s, start, at, rest, nothing_measured(), known)
}

// The line itself, which took so many characters.
fn laid_at(
    at: Offset,
    before: Chars,
    rest: Resumed,
    p: Placed,
    width: Pixels,
    looked: Offset,
    e: Ended,
    chars: Chars,
) -> LaidRow
    ensures { result ≡ row_of (laid_at at.0 before.0 rest p width.0 looked.0 e chars.0) }
{
    let entry = entry_at(at, before, rest, p, width, looked, e);
    let last = is_last(e.ended);
    let held = e.rest;
    LaidRow {
        entry,
        last,
        next: e.next,
        chars,
        rest: held,
    }
}

// The line whose drawing pass ends as its measuring pass did.
fn laid_alike(
    s: Settings,
    at: Offset,
    before: Chars,
    rest: Resumed,
    e: Ended,
    chars: Chars,
) -> LaidRow
    requires { FineSettings s × (e.measure.count.0 ≤ 65535) }
    ensures { result ≡ row_of (laid_at at.0 before.0 rest (placed_by s e) e.measure.width.0 e.reach.0 e chars.0) }
{
    let m = e.measure;
    let p = placed_by(s, e);
    let looked = e.reach;
    laid_at(at, before, rest, p, m.width, looked, e, chars)
}

// The line in two passes. One that is placed as it was measured is drawn as it was.
fn lay_twice(text: &[u8], s: Settings, at: usize, rest: Resumed, known: Known) -> Passes
    requires { LineReady s text.now at rest × KnownFits text.now known }
    ensures { LaidBy s text.now at rest result }
{
    if is_cut_again(s, at, rest) {
        return lay_rest(text, s, at, rest);
    }
    let first = pass_over(text, s, at, rest, placed_plainly(s), known);
    let m = first.measure;
    let p = placed_by(s, first);
    let looked = first.reach;
    if as_measured(s, p) {
        let chars = chars_to(text, at, first.next);
        return Passes {
            placed: p,
            width: m.width,
            looked,
            drawn: first,
            chars,
        };
    }
    let drawn = pass_over(text, s, at, rest, p, known);
    let chars = chars_to(text, at, drawn.next);
    Passes {
        placed: p,
        width: m.width,
        looked,
        drawn,
        chars,
    }
}

// The line that its passes make.
fn laid_by(at: Offset, before: Chars, rest: Resumed, x: Passes) -> LaidRow
    ensures { result ≡ row_of (line_by at.0 before.0 rest x) }
{
    let p = x.placed;
    let e = x.drawn;
    laid_at(at, before, rest, p, x.width, x.looked, e, x.chars)
}

// The line at an offset of a text, behind so many characters and after a rest that it resumes, where a word may be known.
pub fn lay_line(
    text: &[u8],
    s: Settings,
    at: usize,
    before: Chars,
    rest: Resumed,
    known: Known,
) -> LaidRow
    requires { LineReady s text.now at rest × KnownFits text.now known }
    ensures { result ≡ row_of (line_from s text.now at before.0 rest) }
{
    let start = at as u32;
    if rest.chars.0 == 0 {
        if let Some(q) = quick_line(text, s, at, known) {
            return laid_alike(s, Offset(start), before, rest, q.ended, q.taken);
        }
        let here = known_here(text, at, known);
        if let Some(q) = cut_line(text, s, at, here) {
            return laid_alike(s, Offset(start), before, rest, q.ended, q.taken);
        }
        let x = lay_twice(text, s, at, rest, here);
        return laid_by(Offset(start), before, rest, x);
    }
    let x = lay_twice(text, s, at, rest, known);
    laid_by(Offset(start), before, rest, x)
}
