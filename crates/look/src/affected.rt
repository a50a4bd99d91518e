// The first line that an edit affects, with all that can be refused of the edit and the table alone.
// Refusal 3, refusal 5, refusal 6, laying again.
// A table is lent with a count of lines beside it, as C lends it: the count may be past the table, and refusal 5 answers that.
ghost use Rattle.std.specs.Prelude.{◌≡◌};
ghost use Rattle.meaning.specs.Calls.{affected_answer};
ghost use Rattle.table.specs.EditAlone.{check_place};

use crate::well_formed::{look_over, text_length};
use checks::text::check_length;
use meaning::counts::Offset;
use meaning::edit::Edit;
use meaning::refusals::Refusal;
use table::edited::edited_whole;

// Refusal 3 and refusal 6, of an edit of a text of so many bytes.
fn check_place(bytes: Offset, edit: Edit) -> Result<(), Refusal>
    ensures { result ≡ check_place bytes.0 edit }
{
    let whole = edited_whole(bytes, edit).ok_or(Refusal::BadEdit)?;
    check_length(whole)
}

// The first line that an edit affects; refusal 3, refusal 5 and refusal 6.
pub fn first_affected(table: &[u32], lines: usize, edit: Edit) -> Result<u64, Refusal>
    ensures { result ≡ affected_answer table.now lines edit }
{
    let line = look_over(table, lines, edit.from)?;
    check_place(text_length(table, lines), edit)?;
    Ok(line)
}
