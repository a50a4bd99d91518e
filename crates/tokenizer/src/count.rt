// How many tokens a text has (rule 3).
ghost use Rattle.std.specs.Prelude.{◌≡◌, ◌≤◌, length};
ghost use Rattle.meaning.specs.Tokens.{tokens};
ghost use Rattle.parser.specs.Lexing.{chars_from};

use crate::reader::Reader;

pub fn count_tokens(text: &[u8]) -> usize
    requires { length text.now ≤ 65535 }
    ensures { result ≡ length (tokens (chars_from text.now 0)) }
{
    Reader { text, at: 0 }.count()
}
