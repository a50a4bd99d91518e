// The smallest box width in which a text fits so many lines and loses no character: a public call (rule 10, refusal 1, refusal 2,
// refusal 3, refusal 4).
ghost use Rattle.std.specs.Prelude.{◌≡◌, Ok};
ghost use Rattle.utf8.specs.Decoding.{decode_all};
ghost use Rattle.meaning.specs.Checks.{check_utf8};
ghost use Rattle.meaning.specs.Columns.{narrowest};
ghost use Rattle.meaning.specs.ColumnCalls.{planning_answer};
ghost use Rattle.rows.specs.RowsFrom.{TextReady};

use crate::checked::check_columns;
use crate::fitting::fits_whole;
use crate::skipping::{next_width, skips_of};
use crate::starting::first_width;
use crate::width::{WIDEST_BOX, with_width};
use meaning::refusals::Refusal;
use meaning::settings::Settings;

// The smallest width of all. Those are passed over in which it fills too many lines, or that lay it as one does in which it did not fit: how
// many, differs from width to width, so that no `for` has this step.
fn narrowest_width(s: Settings, text: &[u8], h: u32) -> Option<u64>
    requires { TextReady s text.now × (check_utf8 text.now ≡ Ok tt) }
    ensures { result ≡ narrowest s h (decode_all text.now) }
{
    let skips = skips_of(s, text);
    let mut w = first_width(s, text, h, skips);
    while w <= WIDEST_BOX {
        let tried = with_width(s, w);
        if fits_whole(text, tried, h) {
            return Some(w as u64);
        }
        w = next_width(skips, w);
    }
    None
}

// That width, or that there is none; or refusal 1, 2, 3 or 4.
pub fn plan_columns(s: Settings, text: &[u8], h: u32) -> Result<Option<u64>, Refusal>
    ensures { result ≡ planning_answer s h text.now }
{
    check_columns(s, text, h)?;
    Ok(narrowest_width(s, text, h))
}
