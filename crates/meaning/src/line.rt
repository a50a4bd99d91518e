// A line: how it ends, its measure and its place, and its numbers and events.
ghost use Rattle.std.specs.Prelude.{◌≡◌};
ghost use Rattle.meaning.specs.Line.{end_number};
ghost use Rattle.meaning.specs.Table.{event_number};

use crate::counts::{Chars, Offset, Pixels};
use crate::cursor::Spaces;

// How a line ends.
#[derive(Clone, Copy)]
pub enum LineEnd {
    NewLine,
    CarriageReturn,
    EndOfText,
    LineBreak,
}

impl From<LineEnd> for u32 {
    ghost from_gives = { λ ended number. number ≡ end_number ended };

    fn from(ended: LineEnd) -> u32 {
        match ended {
            LineEnd::NewLine => 0,
            LineEnd::CarriageReturn => 1,
            LineEnd::EndOfText => 2,
            LineEnd::LineBreak => 3,
        }
    }
}

// Rule 10: the pen and the spaces counted so far, and the two as they were just after the last print.
#[derive(Clone, Copy)]
pub struct Measure {
    pub pen: Pixels,
    pub spaces: Chars,
    pub width: Pixels,
    pub count: Chars,
}

// Rule 6: where a line starts, and how wide its spaces are.
#[derive(Clone, Copy)]
pub struct Placed {
    pub left: Pixels,
    pub spaces: Spaces,
}

// What is left of a space run that a line's end cut: where it ends and how many spaces it counts. 0 and 0: nothing is.
#[derive(Clone, Copy)]
pub struct Rest {
    pub end: Offset,
    pub count: Chars,
}

// Rule 12: the eleven numbers of a line. The ending is a number, since a lent table may hold any; `before` counts the
// characters before the line's start.
#[derive(Clone, Copy)]
pub struct Entry {
    pub start: Offset,
    pub rest: Rest,
    pub ending: u32,
    pub left: Pixels,
    pub space: Pixels,
    pub extra: Pixels,
    pub width: Pixels,
    pub dropped: Chars,
    pub reach: Offset,
    pub before: Chars,
}

#[derive(Clone, Copy)]
pub enum EventKind {
    Space,
    Printed,
    Move,
}

impl From<EventKind> for u32 {
    ghost from_gives = { λ kind number. number ≡ event_number kind };

    fn from(kind: EventKind) -> u32 {
        match kind {
            EventKind::Space => 0,
            EventKind::Printed => 1,
            EventKind::Move => 2,
        }
    }
}

// Rule 13: what is drawn, and the pen before it from the box's left.
#[derive(Clone, Copy)]
pub struct Event {
    pub kind: EventKind,
    pub start: Offset,
    pub end: Offset,
    pub count: Chars,
    pub width: Pixels,
    pub x: Pixels,
}
