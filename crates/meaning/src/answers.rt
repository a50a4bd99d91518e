// What the public calls answer besides plain numbers; what is refused is an Err. specs/Answers.antt gives the scope's number and values of each.
use crate::counts::Offset;
use crate::line::Rest;

// How many lines were laid, and how many events were written.
#[derive(Clone, Copy)]
pub struct Drawing {
    pub lines: u64,
    pub events: u64,
}

// How many lines the table now holds, and how many of them were laid.
#[derive(Clone, Copy)]
pub struct Relaid {
    pub lines: u64,
    pub laid: u64,
}

// One line was laid: where the next one starts, and what that one resumes.
#[derive(Clone, Copy)]
pub struct NextLine {
    pub start: Offset,
    pub rest: Rest,
}

// A line's y, and whether the line shows: C gets the y of a line that does not show, too.
#[derive(Clone, Copy)]
pub struct LineY {
    pub y: i32,
    pub shows: bool,
}

// How many lines were read from a layout file, and the length of their text.
#[derive(Clone, Copy)]
pub struct FileRead {
    pub lines: u64,
    pub bytes: u64,
}

// Which of two texts fits so many lines: the long one whole, by its bytes; or the beginning of the short one, by its bytes, and how many
// characters of it are left out.
#[derive(Clone, Copy)]
pub enum Chosen {
    Long(u64),
    Short(u64, u64),
}

// How many lines were laid, and how many pages were listed.
#[derive(Clone, Copy)]
pub struct Paged {
    pub lines: u64,
    pub pages: u64,
}
