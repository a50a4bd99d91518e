// The tests of the calls that check and plan a box width, in their order (refusal 1, refusal 2, refusal 3, refusal 4).
ghost use Rattle.std.specs.Prelude.{◌≡◌};
ghost use Rattle.meaning.specs.ColumnCalls.{check_columns};

use checks::limit::check_limit;
use checks::settings::check_settings;
use checks::text::check_text;
use meaning::refusals::Refusal;
use meaning::settings::Settings;

// Refusal 1 of the limit, then refusals 1 to 4 of settings and text.
pub fn check_columns(s: Settings, text: &[u8], h: u32) -> Result<(), Refusal>
    ensures { result ≡ check_columns s h text.now }
{
    check_limit(h)?;
    check_settings(s)?;
    check_text(text)
}
