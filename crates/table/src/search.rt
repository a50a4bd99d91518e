// The search for the first line that an edit affects (laying again).
// A table goes with the number of its lines beside it: heights says at `height_of` why.
ghost use Rattle.std.specs.Prelude.{◌+◌, ◌*◌, ◌≤◌, ◌≡◌, length};
ghost use Rattle.meaning.specs.Edit.{unaffected};
ghost use Rattle.meaning.specs.Table.{entry_numbers};
ghost use Rattle.table.specs.LinesFrom.{lines_from};

use meaning::counts::Offset;
use meaning::sizes::{ENTRY_NUMBERS, REACH};

// The first line with reach > a, from line j on.
pub fn affected_from(table: &[u32], lines: usize, j: usize, a: Offset) -> usize
    requires { (entry_numbers * lines ≤ length table.now) × (j ≤ lines) }
    ensures { result ≡ j + length (unaffected a.0 (lines_from table.now lines j)) }
{
    for k in j..lines {
        if a.0 < table[ENTRY_NUMBERS * k + REACH] {
            return k;
        }
    }
    lines
}
