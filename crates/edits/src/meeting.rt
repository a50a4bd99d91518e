// Whether an old line stands where a line is to be laid (laying again).
ghost use Rattle.std.specs.Prelude.{◌≡◌};
ghost use Rattle.meaning.specs.Edit.{moved_rest, meets};
ghost use Rattle.edits.specs.Pointer.{stands_before};

use meaning::counts::Offset;
use meaning::edit::Edit;
use meaning::line::{Entry, Rest};
use table::edited::moved_to;

// Where a rest ends, moved: none stays none.
fn moved_end(edit: Edit, rest: Rest) -> u64
    ensures { result ≡ (moved_rest edit rest).end.0 }
{
    if rest.end.0 == 0 {
        return 0;
    }
    moved_to(edit, rest.end.0)
}

// Does a line with this start and rest stand where an old line with start >= b has come to stand. Every test is made.
pub fn meets_line(edit: Edit, start: Offset, rest: Rest, e: Entry) -> bool
    ensures { result ≡ meets edit start.0 rest e }
{
    let held = e.rest;
    let from = moved_to(edit, e.start.0);
    let end = moved_end(edit, held);
    (edit.to.0 <= e.start.0)
        & (from == start.0 as u64)
        & (end == rest.end.0 as u64)
        & (held.count.0 == rest.count.0)
}

// Does no line from a start on meet an old line at x.
pub fn stands_before(edit: Edit, start: Offset, x: u32) -> bool
    ensures { result ≡ stands_before edit start.0 x }
{
    let from = moved_to(edit, x);
    (x < edit.to.0) | (from < start.0 as u64)
}
