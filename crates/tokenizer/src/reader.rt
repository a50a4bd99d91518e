// A reader that holds the caller's text, as the crate's parser does, and goes from token to token. Nothing here calls `token_from`:
// it stands because the scope names its form.
// Rule 3.
ghost use Rattle.std.specs.Prelude.{◌≡◌, ◌≤◌, length};
ghost use Rattle.meaning.specs.Tokens.{tokens};
ghost use Rattle.parser.specs.Lexing.{chars_from, lexed_at};
ghost use Rattle.tokenizer.specs.Reading.{end_of, next_of, read_on, tokens_left};
ghost use Rattle.std.specs.Iterator.{YieldsFirst, item_count};

use meaning::counts::Offset;
use meaning::tokens::Token;
use parser::lexeme::Lexeme;
use parser::lexer::token_at;

#[derive(Clone, Copy)]
pub struct Reader<'a> {
    pub text: &'a [u8],
    pub at: usize,
}

// Where a reader goes on that found this at an offset: at the token's end, and where it is if there is none.
fn end_of(found: Option<Lexeme>, at: usize) -> usize
    ensures { result ≡ end_of at found }
{
    found.map_or(at, |lexeme| lexeme.end.0 as usize)
}

// The token at which the reader stands, whose bytes start at the reader's offset. The reader moves on to their end.
pub fn next<'s, 'a>(reader: &'s mut Reader<'a>) -> Option<Lexeme>
    requires { length reader.old.text.now ≤ 65535 }
    ensures { (result ≡ next_of reader.old) × (reader.new ≡ read_on reader.old) }
{
    let found = token_at(reader.text, reader.at);
    reader.at = end_of(found, reader.at);
    found
}

// The tokens from where the reader stands on, each with its offsets.
impl<'a> Iterator for Reader<'a> {
    type Item = Token;

    ghost can_next = { λ r. length r.text.now ≤ 65535 };

    ghost next_gives = { YieldsFirst tokens_left };

    ghost remaining = { item_count tokens_left };

    fn next(&mut self) -> Option<Token> {
        let start = self.at;
        let lexeme = next(self)?;
        Some(Token {
            kind: lexeme.kind,
            start: Offset(start as u32),
            end: lexeme.end,
            count: lexeme.count,
        })
    }
}

// The token at an offset, by a reader that is put there.
pub fn token_from(text: &[u8], at: usize) -> Option<Lexeme>
    requires { length text.now ≤ 65535 }
    ensures { result ≡ lexed_at at (tokens (chars_from text.now at)) }
{
    let mut reader = Reader { text, at };
    next(&mut reader)
}
