// Good lines that are not the last, skipped by plain numbers (refusal 5).
// A table goes with the number of its lines beside it: heights says at `height_of` why.
ghost use Rattle.std.specs.Prelude.{◌≡◌, ◌+◌, ◌-◌, ◌*◌, ◌/◌, ◌≤◌, true, length, nat_lt, slice_index};
ghost use Rattle.basis.specs.Choice.{pick};
ghost use Rattle.meaning.specs.Table.{entry_numbers};
ghost use Rattle.look.specs.Skipping.{GoodLine, Skipped};

use crate::one_line::{count_fits, ending_good, rest_stands, start_fits};
use crate::runs::skip_plain;
use meaning::sizes::{BEFORE, ENDING, ENTRY_NUMBERS, REACH, REST_COUNT, REST_END};

// Is the line at a number of the table good, behind the line before it and not the last, and its reach at most `most`.
fn line_is_good(table: &[u32], at: usize, bytes: u32, most: u32) -> bool
    requires { (entry_numbers ≤ at) × (at + entry_numbers ≤ length table.now) × (most ≤ bytes + 1) }
    ensures { result ≡ true → GoodLine table.now at bytes most }
{
    let start = table[at];
    let before = at - ENTRY_NUMBERS;
    let reached = table[before + REACH];
    let from = table[before];
    if !start_fits(bytes, from, reached, start) {
        return false;
    }
    let end = table[at + REST_END];
    let count = table[at + REST_COUNT];
    if !rest_stands(bytes, reached, start, end, count) {
        return false;
    }
    let chars = table[at + BEFORE];
    if !count_fits(table[before + BEFORE], start, chars) {
        return false;
    }
    let ending = table[at + ENDING];
    let reach = table[at + REACH];
    ending_good(false, ending) & (reach <= most)
}

// The lines from line j on are good up to the one at a number of the table, if the one before that starts within the text. Else
// none is skipped.
fn skipped_to(table: &[u32], j: usize, at: usize, bytes: u32) -> usize
    requires { (entry_numbers ≤ at) × (at ≤ length table.now) }
    ensures { result ≡ pick (nat_lt bytes (slice_index table.now (at - entry_numbers))) j (at / entry_numbers) }
{
    let start = table[at - ENTRY_NUMBERS];
    if bytes < start {
        return j;
    }
    at / ENTRY_NUMBERS
}

// The first line from line j on that is not good; the last is none, nor is one whose reach is above `most`. Lines as most are go by
// themselves (`runs.rt`), since the others take longer. A turn skips as many as it finds, so it is no `for`.
pub fn skip_good(table: &[u32], lines: usize, j: usize, bytes: u32, most: u32) -> usize
    requires { (1 ≤ j) × (j ≤ lines) × (entry_numbers * lines ≤ length table.now) × (most ≤ bytes + 1) }
    ensures { Skipped table.now lines bytes most j result }
{
    let last = ENTRY_NUMBERS * (lines - 1);
    let first = ENTRY_NUMBERS * j;
    let reached = table[first - ENTRY_NUMBERS + REACH];
    if most < reached {
        return j;
    }
    let mut at = first;
    loop {
        at = skip_plain(table, last, at, most);
        if last <= at {
            return skipped_to(table, j, at, bytes);
        }
        if !line_is_good(table, at, bytes, most) {
            return skipped_to(table, j, at, bytes);
        }
        at += ENTRY_NUMBERS;
    }
}
