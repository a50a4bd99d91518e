// Refusal 5: whether a table is well formed, in one look that finds the first affected line too.
// A table is lent with a count of lines beside it, as C lends it: it may be past the table, which refusal 5 answers; heights says at
// `height_of` why the pair stays behind that check.
ghost use Rattle.std.specs.Prelude.{◌≡◌, ◌*◌, ◌≤◌, length};
ghost use Rattle.meaning.specs.Table.{entry_numbers, entries_in};
ghost use Rattle.meaning.specs.WellFormed.{nothing, last_reach, text_length, check_lines, check_table};
ghost use Rattle.look.specs.Skipping.{check_from};
ghost use Rattle.look.specs.Looking.{looked_over};

use crate::one_line::{LineBefore, entry_good};
use crate::skipping::skip_good;
use meaning::counts::{Chars, Offset};
use meaning::refusals::Refusal;
use meaning::sizes::{BEFORE, ENTRY_NUMBERS, REACH, REACH_LIMIT};
use table::entries::read_entry;
use table::search::affected_from;

// The reach of the last line, 0 if there is none.
pub fn last_reach(table: &[u32], lines: usize) -> Offset
    requires { entry_numbers * lines ≤ length table.now }
    ensures { result.0 ≡ last_reach (entries_in lines table.now) }
{
    if lines == 0 {
        return Offset(0);
    }
    let last = ENTRY_NUMBERS * (lines - 1);
    Offset(table[last + REACH])
}

// The length of the text, one less than that.
pub fn text_length(table: &[u32], lines: usize) -> Offset
    requires { entry_numbers * lines ≤ length table.now }
    ensures { result.0 ≡ text_length (entries_in lines table.now) }
{
    let reach = last_reach(table, lines);
    Offset(reach.0.saturating_sub(1))
}

// The first bad line from line j on, which is not the first line.
fn check_on(table: &[u32], lines: usize, bytes: Offset, j: usize) -> Result<(), Refusal>
    requires { (1 ≤ j) × (j ≤ lines) × (entry_numbers * lines ≤ length table.now) }
    ensures { result ≡ check_from table.now lines bytes.0 j }
{
    for k in j..lines {
        let e = read_entry(table, k);
        let before = ENTRY_NUMBERS * k - ENTRY_NUMBERS;
        let prior = LineBefore {
            start: Offset(table[before]),
            reach: Offset(table[before + REACH]),
            before: Chars(table[before + BEFORE]),
        };
        if !entry_good(bytes, Some(prior), e, k + 1 == lines) {
            return Err(Refusal::BadLine(k as u64));
        }
    }
    Ok(())
}

// The lines behind the first: good ones with reach <= a are skipped, then the other good ones. What is left is looked at once more,
// in the plain way, and that answers.
fn look_behind(table: &[u32], lines: usize, bytes: Offset, a: Offset) -> Result<u64, Refusal>
    requires { (1 ≤ lines) × (entry_numbers * lines ≤ length table.now) }
    ensures { result ≡ looked_over a.0 (check_from table.now lines bytes.0 1) (entries_in lines table.now) }
{
    let most = bytes.0.saturating_add(1);
    let low = skip_good(table, lines, 1, bytes.0, a.0.min(most));
    let good = skip_good(table, lines, low, bytes.0, most);
    check_on(table, lines, bytes, good)?;
    if a.0 < table[REACH] {
        return Ok(0);
    }
    Ok(affected_from(table, lines, low, a) as u64)
}

// The lines of a text of so many bytes: the first bad one, or the first with reach > a.
fn look_lines(table: &[u32], lines: usize, bytes: Offset, a: Offset) -> Result<u64, Refusal>
    requires { (1 ≤ lines) × (entry_numbers * lines ≤ length table.now) }
    ensures { result ≡ looked_over a.0 (check_lines bytes.0 0 nothing (entries_in lines table.now)) (entries_in lines table.now) }
{
    let e = read_entry(table, 0);
    if !entry_good(bytes, None, e, 1 == lines) {
        return Err(Refusal::BadLine(0));
    }
    look_behind(table, lines, bytes, a)
}

// Refusal 5, of any numbers and any count of lines; or else the first line with reach > a, found in the same look.
pub fn look_over(table: &[u32], lines: usize, a: Offset) -> Result<u64, Refusal>
    ensures { result ≡ looked_over a.0 (check_table lines table.now) (entries_in lines table.now) }
{
    if table.len() / ENTRY_NUMBERS < lines {
        return Err(Refusal::BadLine(0));
    }
    let reach = last_reach(table, lines);
    if reach.0 < 1 {
        return Err(Refusal::BadLine(0));
    }
    if REACH_LIMIT < reach.0 {
        return Err(Refusal::BadLine(0));
    }
    look_lines(table, lines, Offset(reach.0 - 1), a)
}

// Refusal 5 alone.
pub fn check_table(table: &[u32], lines: usize) -> Result<(), Refusal>
    ensures { result ≡ check_table lines table.now }
{
    look_over(table, lines, Offset(0))?;
    Ok(())
}
