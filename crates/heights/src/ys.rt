// Rule 11: the ys of lines, one after the other, as an index holds them.
// A table goes with the number of its lines beside it: heights says at `height_of` why.
ghost use Rattle.std.specs.Prelude.{◌≤◌, ◌≡◌, length, Ok};
ghost use Rattle.meaning.specs.Table.{entries_in};
ghost use Rattle.meaning.specs.YIndex.{index_of, written_from};
ghost use Rattle.meaning.specs.Calls.{check_height};

use crate::height::first_y;
use crate::spacing::{added_before, end_adds};
use meaning::settings::Settings;
use meaning::sizes::{ENDING, ENTRY_NUMBERS};

// The ys of the lines from line `from` on. Entries before it are kept, and so is what lies past the last line.
pub fn write_ys(s: Settings, table: &[u32], lines: usize, from: usize, index: &mut [i32])
    requires { (check_height s table.now lines ≡ Ok tt) × (lines ≤ length index.old) }
    ensures { index.new ≡ written_from from index.old (index_of s (entries_in lines table.now)) }
{
    if lines <= from {
        return;
    }
    let first = first_y(s, table, lines);
    let mut added = added_before(s, table, from);
    for k in from..lines {
        index[k] = first + added as i32;
        added += end_adds(s, table[ENTRY_NUMBERS * k + ENDING]);
    }
}
