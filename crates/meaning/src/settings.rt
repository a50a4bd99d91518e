// What a text is laid by (refusal 1, refusal 2).
use crate::counts::Pixels;

// The thirteen settings, in the scope's order and the wrap setting last. Those that choose are numbers, since a caller may lend any: refusal 2
// answers with an alignment that is none.
#[derive(Clone, Copy)]
pub struct Settings {
    // the width of every character
    pub glyph: Pixels,
    // box width
    pub width: Pixels,
    // tab width
    pub tab: Pixels,
    // line spacing
    pub spacing: Pixels,
    // paragraph spacing
    pub paragraph: Pixels,
    // base line height
    pub base: Pixels,
    // box height
    pub height: Pixels,
    // box top
    pub top: i32,
    // 0 left, 1 centre, 2 right, 3 justified
    pub alignment: u32,
    // vertical alignment: 0 top, 1 middle, 2 bottom
    pub vertical: u32,
    // leading spaces: 0 off, 1 on
    pub leading: u32,
    // trailing spaces, which are retired: 0
    pub trailing: u32,
    // a word of which no character fits: 0 it is dropped, 1 it waits for the next line if the cursor has left its starting place
    pub wrap: u32,
}
