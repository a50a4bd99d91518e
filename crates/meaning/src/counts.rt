// Three kinds of count, none of which stands for another.

// Bytes from the start of a text.
#[derive(Clone, Copy)]
pub struct Offset(pub u32);

// Characters, which take one to four bytes each.
#[derive(Clone, Copy)]
pub struct Chars(pub u32);

// Widths and heights on the screen.
#[derive(Clone, Copy)]
pub struct Pixels(pub u32);
