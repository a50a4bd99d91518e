// Whether the numbers of one line are good behind those of the line before it (refusal 5).
ghost use Rattle.std.specs.Prelude.{◌≡◌};
ghost use Rattle.meaning.specs.WellFormed.{start_good, no_rest, rest_good, count_good};
ghost use Rattle.look.specs.OneLine.{before_of, start_fits, rest_stands, count_fits, ending_at, line_good};

use meaning::counts::{Chars, Offset};
use meaning::line::Entry;

// What a line is held to of the line before it: that line's start, its reach and the characters before it.
#[derive(Clone, Copy)]
pub struct LineBefore {
    pub start: Offset,
    pub reach: Offset,
    pub before: Chars,
}

// Every test of a line is made, whatever the others say, as in the definitions.

// A start, where the line before starts at `from` and reaches `reached`.
pub fn start_fits(bytes: u32, from: u32, reached: u32, start: u32) -> bool
    ensures { result ≡ start_fits bytes from reached start }
{
    (from < start) & (start <= reached) & (start <= bytes)
}

// A rest, or none.
pub fn rest_stands(bytes: u32, reached: u32, start: u32, end: u32, count: u32) -> bool
    ensures { result ≡ rest_stands bytes reached start end count }
{
    if (end == 0) & (count == 0) {
        return true;
    }
    if end <= start {
        return false;
    }
    (end <= bytes) & (end <= reached) & (count <= end - start)
}

// The characters before a line that starts at `start`, where there are `from` before the line before it.
pub fn count_fits(from: u32, start: u32, count: u32) -> bool
    ensures { result ≡ count_fits from start count }
{
    (from < count) & (count <= start)
}

pub fn has_no_rest(e: Entry) -> bool
    ensures { result ≡ no_rest e }
{
    (e.rest.end.0 == 0) & (e.rest.count.0 == 0)
}

fn start_good(bytes: Offset, prior: Option<LineBefore>, e: Entry) -> bool
    ensures { result ≡ start_good bytes.0 (before_of prior) e }
{
    let start = e.start.0;
    match prior {
        None => start == 0,
        Some(line) => start_fits(bytes.0, line.start.0, line.reach.0, start),
    }
}

fn rest_good(bytes: Offset, prior: Option<LineBefore>, e: Entry) -> bool
    ensures { result ≡ rest_good bytes.0 (before_of prior) e }
{
    match prior {
        None => has_no_rest(e),
        Some(line) => rest_stands(
            bytes.0,
            line.reach.0,
            e.start.0,
            e.rest.end.0,
            e.rest.count.0,
        ),
    }
}

fn count_good(prior: Option<LineBefore>, e: Entry) -> bool
    ensures { result ≡ count_good (before_of prior) e }
{
    let count = e.before.0;
    match prior {
        None => count == 0,
        Some(line) => count_fits(line.before.0, e.start.0, count),
    }
}

pub fn ending_good(last: bool, ending: u32) -> bool
    ensures { result ≡ ending_at last ending }
{
    if last {
        return ending == 2;
    }
    (ending <= 3) & (ending != 2)
}

// One line of a text of so many bytes, given the line before it and whether it is the last. 32-bit numbers are added in 64 bits, so
// that nothing wraps.
pub fn entry_good(bytes: Offset, prior: Option<LineBefore>, e: Entry, last: bool) -> bool
    ensures { result ≡ line_good bytes.0 (before_of prior) e last }
{
    let start = start_good(bytes, prior, e);
    let rest = rest_good(bytes, prior, e);
    let ending = ending_good(last, e.ending);
    let count = count_good(prior, e);
    start & rest & ending & (e.reach.0 as u64 <= bytes.0 as u64 + 1) & count
}
