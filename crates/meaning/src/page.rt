// A page of a text: so many lines of its layout.
use crate::counts::Offset;

// Its first line, and the bytes of the text that its lines take: from `start` on, and before `end`.
#[derive(Clone, Copy)]
pub struct Page {
    pub first: u32,
    pub start: Offset,
    pub end: Offset,
}
