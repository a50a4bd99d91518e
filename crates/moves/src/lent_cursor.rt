// The cursor lent and moved, as the crate's `move_cursor` and `move_cursor_forward` do it (rule 4): a thin layer over the move by value.
ghost use Rattle.std.specs.Prelude.{◌≡◌};
ghost use Rattle.meaning.specs.Cursor.{move_by};
ghost use Rattle.moves.specs.Fine.{FineCursor};
ghost use Rattle.moves.specs.Lent.{position_after, cursor_after};

use crate::cursor::move_by;
use meaning::counts::Pixels;
use meaning::cursor::{LineCursor, Moved};

// Where the cursor stands that a move answers.
fn position_after(moved: Moved) -> Pixels
    ensures { result ≡ position_after moved }
{
    match moved {
        Moved::By(_, to) => to.position,
        Moved::Room(_, to) => to.position,
    }
}

// A move by any signed distance, of a cursor that is lent: the position that `move_by` answers is stored. Nothing calls it: it
// stands because the scope names its form.
pub fn move_cursor(cursor: &mut LineCursor, by: i32) -> Moved
    requires { FineCursor cursor.old }
    ensures { (result ≡ move_by cursor.old by)
        × (cursor.new ≡ cursor_after (move_by cursor.old by)) }
{
    let moved = move_by(*cursor, by);
    cursor.position = position_after(moved);
    moved
}
