// Plain lines skipped, in step with the line before them or not (refusal 5).
ghost use Rattle.std.specs.Prelude.{◌+◌, ◌≤◌, length};
ghost use Rattle.meaning.specs.Table.{entry_numbers};
ghost use Rattle.look.specs.Skipping.{PlainLines};

use crate::in_step::skip_in_step;
use crate::plain::{BLOCK, skip_blocks, skip_singly};

// Blocks of plain lines are skipped, in step and not, while there are any before the line at `last`. Those in step come second: they
// are looked for only behind a block that could be. A turn passes as many as it finds, so it is no `for`.
fn skip_runs(table: &[u32], last: usize, from: usize, most: u32) -> usize
    requires { (entry_numbers ≤ from) × (last + entry_numbers ≤ length table.now) }
    ensures { PlainLines table.now last most from result }
{
    let mut at = from;
    loop {
        let to = skip_blocks(table, last, at, most);
        if to == at {
            return at;
        }
        at = skip_in_step(table, last, to, most);
    }
}

// Where a block ends that starts at a number of the table, or `last` if that comes first.
fn block_end(last: usize, at: usize) -> usize
    ensures { result ≤ last }
{
    last.min(at.saturating_add(BLOCK))
}

// The first line from a number of the table on that is not plain, or one behind a block; the line at `last` is none.
pub fn skip_plain(table: &[u32], last: usize, from: usize, most: u32) -> usize
    requires { (entry_numbers ≤ from) × (last + entry_numbers ≤ length table.now) }
    ensures { PlainLines table.now last most from result }
{
    let at = skip_runs(table, last, from, most);
    skip_singly(table, block_end(last, at), at, most)
}
