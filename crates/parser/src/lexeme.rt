// Tokens as the passes read them (rule 3).
use meaning::counts::{Chars, Offset};
use meaning::tokens::TokenKind;

// Where a token ends, its characters, the spaces that it counts, how many of its characters glue, and
// the offset after the character that ends it.
#[derive(Clone, Copy)]
pub struct Lexeme {
    pub kind: TokenKind,
    pub end: Offset,
    pub chars: Chars,
    pub count: Chars,
    pub glues: Chars,
    pub reach: Offset,
}
