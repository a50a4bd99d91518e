// The call that finds all tokens of a text (rule 3, refusal 3, refusal 4, refusal 8).
ghost use Rattle.std.specs.Prelude.{◌≡◌, ◌≤◌, length};
ghost use Rattle.meaning.specs.Calls.{tokens_answer, tokens_buffer};
ghost use Rattle.tokenizer.specs.Writing.{room_answer, room_buffer};

use crate::count::count_tokens;
use crate::write::write_tokens;
use checks::text::check_text;
use meaning::refusals::Refusal;
use meaning::sizes::TOKEN_NUMBERS;

// Refusal 8. There are no more tokens than bytes, so a buffer that has room for a token a byte needs no count first.
fn fill(text: &[u8], buffer: &mut [u32]) -> Result<u64, Refusal>
    requires { length text.now ≤ 65535 }
    ensures value { result ≡ room_answer text.now buffer.old }
    ensures buffer_after { buffer.new ≡ room_buffer text.now buffer.old }
{
    let room = buffer.len() / TOKEN_NUMBERS;
    if text.len() <= room {
        return Ok(write_tokens(text, buffer) as u64);
    }
    let needed = count_tokens(text);
    if room < needed {
        return Err(Refusal::TooSmall(needed as u64));
    }
    Ok(write_tokens(text, buffer) as u64)
}

// Refusal 3, refusal 4 and refusal 8 in this order, of which none writes anything; else each token's four numbers.
pub fn tokenize(text: &[u8], buffer: &mut [u32]) -> Result<u64, Refusal>
    ensures value { result ≡ tokens_answer text.now buffer.old }
    ensures buffer_after { buffer.new ≡ tokens_buffer text.now buffer.old }
{
    check_text(text)?;
    fill(text, buffer)
}
