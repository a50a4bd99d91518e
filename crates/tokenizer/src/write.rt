// The tokens of a text, written to a buffer as four numbers each (rule 3).
ghost use Rattle.std.specs.Prelude.{◌≡◌, ◌+◌, ◌*◌, ◌≤◌, length};
ghost use Rattle.std.proofs.lemmas.List.Edits.{sets};
ghost use Rattle.meaning.specs.Tokens.{tokens};
ghost use Rattle.meaning.specs.Table.{token_numbers};
ghost use Rattle.parser.specs.Lexing.{chars_from};
ghost use Rattle.tokenizer.specs.Writing.{numbers_of, numbers_from};

use meaning::sizes::TOKEN_NUMBERS;
use parser::lexeme::Lexeme;
use parser::lexer::token_at;

// One token that starts at an offset, to a place of the buffer.
fn put_token(buffer: &mut [u32], place: usize, start: u32, lexeme: Lexeme)
    requires { place + 4 ≤ length buffer.old }
    ensures { buffer.new ≡ sets buffer.old place (numbers_of start lexeme) }
{
    buffer[place] = u32::from(lexeme.kind);
    buffer[place + 1] = start;
    buffer[place + 2] = lexeme.end.0;
    buffer[place + 3] = lexeme.count.0;
}

// All tokens of a text, to a buffer that has room for them. How many there are.
pub fn write_tokens(text: &[u8], buffer: &mut [u32]) -> usize
    requires { (length text.now ≤ 65535) × (token_numbers * length (tokens (chars_from text.now 0)) ≤ length buffer.old) }
    ensures value { result ≡ length (tokens (chars_from text.now 0)) }
    ensures buffer_after { buffer.new ≡ sets buffer.old 0 (numbers_from text.now 0) }
{
    // Not by the reader's iterator: where a token goes, and how many there are, is counted beside it all the same.
    let mut n: usize = 0;
    let mut at: usize = 0;
    while let Some(lexeme) = token_at(text, at) {
        put_token(buffer, TOKEN_NUMBERS * n, at as u32, lexeme);
        n += 1;
        at = lexeme.end.0 as usize;
    }
    n
}
