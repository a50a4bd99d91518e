// What a token does to a line, and how a pass ends (rule 8 and rule 9).
use meaning::counts::{Chars, Offset};
use meaning::cursor::Place;
use meaning::line::{LineEnd, Measure};

// What is left of a cut space run: where it ends, its characters and its count. No characters: nothing is left.
#[derive(Clone, Copy)]
pub struct Resumed {
    pub end: Offset,
    pub chars: Chars,
    pub count: Chars,
}

// How a pass ended: where the next line starts and what it resumes, what was measured, dropped and examined.
#[derive(Clone, Copy)]
pub struct Ended {
    pub ended: LineEnd,
    pub measure: Measure,
    pub next: Offset,
    pub rest: Resumed,
    pub dropped: Chars,
    pub reach: Offset,
}

// What a token does: the pass goes on from a place, having measured and looked so far; or it ends. A reach of 0 is none.
#[derive(Clone, Copy)]
pub enum Stepped {
    Go(Place, Measure, Offset),
    Stop(Ended),
}
