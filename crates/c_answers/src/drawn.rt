// Of the answer of laying with events: lines and events.
ghost use Rattle.std.specs.Prelude.{◌≡◌};
ghost use Rattle.meaning.specs.Answers.{drawingValue, drawingCount};

use checks::refusals::value;
use meaning::answers::Drawing;
use meaning::refusals::Refusal;

pub fn drawing_value(a: Result<Drawing, Refusal>) -> u64
    ensures { result ≡ drawingValue a }
{
    a.map_or_else(value, |drawing| drawing.lines)
}

// The count of events, and where the call was refused the number that the caller had there.
pub fn drawing_count(a: Result<Drawing, Refusal>, old: u64) -> u64
    ensures { result ≡ drawingCount a old }
{
    a.map_or(old, |drawing| drawing.events)
}
