// What a look ahead answers, and what is known of one before it is taken (rule 8 and rule 12).
use meaning::counts::{Offset, Pixels};

// Whether the next word fits, and the offset after the furthest character looked at: it stands in either case.
#[derive(Clone, Copy)]
pub struct Look {
    pub fits: bool,
    pub reach: Offset,
}

// The next word's width, and the offset after the furthest character looked at.
#[derive(Clone, Copy)]
pub struct WidthAhead {
    pub width: Option<Pixels>,
    pub reach: Offset,
}
