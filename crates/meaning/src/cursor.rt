// Where a pass stands in its line, how wide its spaces are, and what it carries from token to token (rule 4, rule 5, rule 8).
use crate::counts::Pixels;

// Rule 4: where a pass stands in its line.
#[derive(Clone, Copy)]
pub struct LineCursor {
    pub width: Pixels,
    pub position: Pixels,
    pub tab: Pixels,
    // the position that the pass started from
    pub start: Pixels,
}

// What a signed move answers: how far it went and the cursor there; or, of one too long, the room that it had and the cursor that is
// left.
#[derive(Clone, Copy)]
pub enum Moved {
    By(i32, LineCursor),
    Room(i32, LineCursor),
}

// Rule 5: the width of a space, and how many of the next spaces are one pixel wider.
#[derive(Clone, Copy)]
pub struct Spaces {
    pub width: Pixels,
    pub extra: Pixels,
}

// What a pass carries from token to token. A line is empty until it prints a word; cursor and spaces stand in either case.
#[derive(Clone, Copy)]
pub struct Place {
    pub cursor: LineCursor,
    pub spaces: Spaces,
    pub empty: bool,
}
