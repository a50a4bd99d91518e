// The line under a y (rule 11; refusal 5, refusal 10).
// A table is lent with a count of lines beside it, as C lends it: the count may be past the table, and refusal 5 answers that.
ghost use Rattle.std.specs.Prelude.{◌≡◌, ◌<◌, length, Ok};
ghost use Rattle.meaning.specs.YIndex.{check_ys, find_in};
ghost use Rattle.meaning.specs.Calls.{check_finding, find_answer};

use crate::halving::last_under;
use crate::rising::check_index;
use look::well_formed::check_table;
use meaning::refusals::Refusal;

fn check_finding(table: &[u32], lines: usize, index: &[i32]) -> Result<(), Refusal>
    ensures { result ≡ check_finding table.now lines index.now }
{
    check_table(table, lines)?;
    check_index(lines, index)
}

// The last line with y at most the given one, in an index that is in order.
fn find_in(index: &[i32], y: i32) -> Option<u64>
    requires { (0 < length index.now) × (check_ys index.now ≡ Ok tt) }
    ensures { result ≡ find_in y index.now }
{
    if index[0] <= y {
        return Some(last_under(index, 0, index.len(), y) as u64);
    }
    None
}

// The same of any table and index.
pub fn find_line(table: &[u32], lines: usize, index: &[i32], y: i32) -> Result<Option<u64>, Refusal>
    ensures { result ≡ find_answer table.now lines index.now y }
{
    check_finding(table, lines, index)?;
    Ok(find_in(index, y))
}
