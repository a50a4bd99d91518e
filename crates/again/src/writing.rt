// The lines laid again, written to the table (laying again).
ghost use Rattle.std.specs.Prelude.{◌≤◌, ◌≡◌, take};
ghost use Rattle.table.specs.Moving.{MovableEntry, moved_by};
ghost use Rattle.rows.specs.RowsFrom.{entries_from};
ghost use Rattle.rows.specs.Writing.{lines_put};
ghost use Rattle.again.specs.Behind.{behind};
ghost use Rattle.again.specs.Writing.{WriteReady};

use meaning::counts::{Chars, Offset};
use meaning::edit::Edit;
use meaning::line::Entry;
use meaning::settings::Settings;
use rows::stand::lay_row;
use stands::stand::{Stand, next_stand};
use table::edited::Shift;
use table::entries::write_entry;
use table::moving::moved_entry;

// A line of a part that stands behind so many bytes, as a line of the whole.
fn entry_behind(base: Offset, e: Entry) -> Entry
    requires { (base.0 ≤ 65536) × MovableEntry (behind base.0) e }
    ensures { result ≡ moved_by (behind base.0) e }
{
    let front = Edit {
        from: Offset(0),
        to: Offset(0),
        inserted: base,
    };
    let shift = Shift {
        edit: front,
        from: Chars(0),
        to: Chars(0),
    };
    moved_entry(e, shift)
}

// Lays so many lines from a stand on once more, and writes them from line k on.
pub fn write_again(
    part: &[u8],
    s: Settings,
    table: &mut [u32],
    base: Offset,
    k: usize,
    laid: usize,
    front: Stand,
)
    requires { WriteReady s part.now table.old base.0 k laid front }
    ensures { table.new ≡ lines_put table.old k (take laid (entries_from s part.now base.0 front)) }
{
    let mut stand = front;
    for n in 0..laid {
        let row = lay_row(part, s, stand);
        let whole = entry_behind(base, row.entry);
        write_entry(table, k + n, whole);
        stand = next_stand(part, stand, row);
    }
}
