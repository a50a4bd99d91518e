// The fresh layout of a text: a public call (rule 10, refusal 1, refusal 2, refusal 3, refusal 4, refusal 8).
ghost use Rattle.std.specs.Prelude.{◌≡◌};
ghost use Rattle.meaning.specs.Calls.{layout_answer, layout_table};

use crate::checked::check_layout;
use meaning::refusals::Refusal;
use meaning::settings::Settings;
use rows::lines::write_lines;

// Each line's eleven numbers; or refusal 1, 2, 3, 4 or 8, of which none writes anything.
pub fn layout(s: Settings, text: &[u8], table: &mut [u32]) -> Result<u64, Refusal>
    ensures value { result ≡ layout_answer s text.now table.old }
    ensures table_after { table.new ≡ layout_table s text.now table.old }
{
    check_layout(s, text, table)?;
    Ok(write_lines(text, s, table) as u64)
}
