// Refusal 3 and refusal 4: a text that is too long, or no UTF-8.
ghost use Rattle.std.specs.Prelude.{◌≡◌};
ghost use Rattle.meaning.specs.Checks.{check_length, check_text};

use meaning::counts::Offset;
use meaning::refusals::Refusal;
use meaning::sizes::TEXT_LIMIT;
use utf8::text::valid_prefix;

// Refusal 3, of a text of so many bytes.
pub fn check_length(bytes: u64) -> Result<(), Refusal>
    ensures { result ≡ check_length bytes }
{
    if (TEXT_LIMIT as u64) < bytes {
        return Err(Refusal::TextTooLong(bytes));
    }
    Ok(())
}

// Refusal 3 and refusal 4. A text that is too long is not read at all.
pub fn check_text(text: &[u8]) -> Result<(), Refusal>
    ensures { result ≡ check_text text.now }
{
    check_length(text.len() as u64)?;
    let prefix = valid_prefix(text);
    if prefix == text.len() {
        return Ok(());
    }
    Err(Refusal::NotUtf8(Offset(prefix as u32)))
}
