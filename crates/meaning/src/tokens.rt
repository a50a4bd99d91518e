// Tokens: what each is, and which part of the text it shows.
ghost use Rattle.std.specs.Prelude.{◌≡◌};
ghost use Rattle.meaning.specs.Table.{token_number};

use crate::counts::{Chars, Offset};

// Rule 2. A soft hyphen is a Break.
#[derive(Clone, Copy)]
pub enum TokenKind {
    NewLine,
    CarriageReturn,
    Tab,
    Whitespace,
    Word,
    Break,
}

impl From<TokenKind> for u32 {
    ghost from_gives = { λ kind number. number ≡ token_number kind };

    fn from(kind: TokenKind) -> u32 {
        match kind {
            TokenKind::NewLine => 0,
            TokenKind::CarriageReturn => 1,
            TokenKind::Tab => 2,
            TokenKind::Whitespace => 3,
            TokenKind::Word => 4,
            TokenKind::Break => 5,
        }
    }
}

// Rule 3: what a token is and which part of the text it shows. The count is that of Whitespace, 0 for every other kind.
#[derive(Clone, Copy)]
pub struct Token {
    pub kind: TokenKind,
    pub start: Offset,
    pub end: Offset,
    pub count: Chars,
}
