// Whether a text fits so many lines and loses no character: a public call (rule 10, refusal 1, refusal 2, refusal 3, refusal 4).
ghost use Rattle.std.specs.Prelude.{◌≡◌};
ghost use Rattle.utf8.specs.Decoding.{decode_all};
ghost use Rattle.meaning.specs.Columns.{fits_whole};
ghost use Rattle.meaning.specs.ColumnCalls.{fitting_answer};
ghost use Rattle.rows.specs.RowsFrom.{TextReady};

use crate::checked::check_columns;
use meaning::refusals::Refusal;
use meaning::settings::Settings;
use rows::stand::lay_row;
use stands::stand::{at_start, next_stand};

// Laid so, the text has at most h lines and loses no character. No line is laid after one that dropped a character, and none after the
// last that may be: nor is it asked where that one would stand, which looks at all of a long word.
pub fn fits_whole(text: &[u8], s: Settings, h: u32) -> bool
    requires { TextReady s text.now }
    ensures { result ≡ fits_whole s h (decode_all text.now) }
{
    let mut stand = at_start(text);
    for line in 0..h {
        let row = lay_row(text, s, stand);
        if row.entry.dropped.0 != 0 {
            return false;
        }
        if row.last {
            return true;
        }
        if line + 1 == h {
            return false;
        }
        stand = next_stand(text, stand, row);
    }
    false
}

// Whether it does; or refusal 1, 2, 3 or 4.
pub fn columns_fit(s: Settings, text: &[u8], h: u32) -> Result<bool, Refusal>
    ensures { result ≡ fitting_answer s h text.now }
{
    check_columns(s, text, h)?;
    Ok(fits_whole(text, s, h))
}
