// Of the answers about one line, its y, and what is found: where the next line starts, whether a line shows, which line or width it is.
ghost use Rattle.std.specs.Prelude.{◌≡◌};
ghost use Rattle.meaning.specs.Answers.{frameValue, frameRestEnd, frameRestCount, yValue, yPlace, found_value};

use checks::refusals::value;
use meaning::answers::{LineY, NextLine};
use meaning::refusals::Refusal;
use meaning::sizes::NO_LINE;

pub fn frame_value(a: Result<NextLine, Refusal>) -> u64
    ensures { result ≡ frameValue a }
{
    a.map_or_else(value, |next| next.start.0 as u64)
}

// The end and the count of the next line's rest are written only where the call was done.
pub fn put_rest(a: Result<NextLine, Refusal>, stops: &mut u32, counts: &mut u32)
    ensures stops_after { stops.new ≡ frameRestEnd a stops.old }
    ensures counts_after { counts.new ≡ frameRestCount a counts.old }
{
    if let Ok(next) = a {
        *stops = next.rest.end.0;
        *counts = next.rest.count.0;
    }
}

pub fn y_value(a: Result<Option<LineY>, Refusal>) -> u64
    ensures { result ≡ yValue a }
{
    match a {
        Ok(Some(line)) => line.shows as u64,
        Ok(None) => 2,
        Err(refusal) => value(refusal),
    }
}

// The y is written only where there is such a line.
pub fn put_y(a: Result<Option<LineY>, Refusal>, y: &mut i32)
    ensures { y.new ≡ yPlace a y.old }
{
    if let Ok(Some(line)) = a {
        *y = line.y;
    }
}

// The line or the width that was found; what stands for no line stands for no width too.
pub fn found_value(a: Result<Option<u64>, Refusal>) -> u64
    ensures { result ≡ found_value a }
{
    match a {
        Ok(Some(found)) => found,
        Ok(None) => NO_LINE,
        Err(refusal) => value(refusal),
    }
}
