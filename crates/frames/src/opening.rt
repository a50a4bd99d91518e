// Opening a text that is laid line by line: a public call (refusal 1, refusal 2, refusal 3, refusal 4).
ghost use Rattle.std.specs.Prelude.{◌≡◌};
ghost use Rattle.meaning.specs.Calls.{check_open, open_answer};

use checks::settings::check_settings;
use checks::text::check_text;
use meaning::refusals::Refusal;
use meaning::settings::Settings;

// Refusals 1 to 4, in their order.
pub fn check_open(s: Settings, text: &[u8]) -> Result<(), Refusal>
    ensures { result ≡ check_open s text.now }
{
    check_settings(s)?;
    check_text(text)
}

// Where the first line starts, or a refusal.
pub fn open_text(s: Settings, text: &[u8]) -> Result<u64, Refusal>
    ensures { result ≡ open_answer s text.now }
{
    check_open(s, text)?;
    Ok(0)
}
