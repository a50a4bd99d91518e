// Plain lines that add as many bytes as characters to the lines before them, as all of a text in ASCII do: what a line reached and how
// many characters stand before it are one number of 64 bits, held to what is due by one test (refusal 5).
ghost use Rattle.std.specs.Prelude.{◌≡◌, ℕ, ◌+◌, ◌*◌, ◌<◌, ◌≤◌, length};
ghost use Rattle.meaning.specs.Table.{entry_numbers};
ghost use Rattle.look.specs.Skipping.{block_lines, block_numbers, span, pair_at, InStep, StepLines, PlainLines};

use crate::plain::{BLOCK, LINES, SPAN, all_break, pair, wide};
use meaning::sizes::{BEFORE, ENTRY_NUMBERS, REACH};
use std::num::{wrapping_add_u32, wrapping_sub_u32, wrapping_sub_u64};

// 0 if a line is in step with a lag, the number that makes its start the characters before it, and the line behind it starts past its
// start and before its reach, without a rest; else 1 or 2, told apart for the compiler as in `starting`. The lines start at most at
// `last`: a reach that is no further past the next start than `most` is past `last` is at most `most`.
fn in_step(table: &[u32], at: usize, lag: u32, last: u64, most: u64) -> u32
    requires { (at + 2 * entry_numbers ≤ length table.now) × (pair_at table.now (at + entry_numbers) ≤ last) × (last < most) × (most < span) }
    ensures { result ≡ 0 → InStep table.now at lag most × (pair_at table.now at ≤ last) }
{
    let next = pair(table, at + ENTRY_NUMBERS);
    let start = pair(table, at);
    if next <= start {
        return 2;
    }
    let low = start as u32;
    let chars = wide(wrapping_add_u32(low, lag));
    let due = SPAN * chars + next;
    let found = pair(table, at + REACH);
    if wrapping_sub_u64(due, found) < wrapping_sub_u64(last, most) {
        return 1;
    }
    0
}

// 0 if all lines of a block are; else 1 or 2. The last is asked first, since a character of more than one byte in any line before it
// shows there.
fn all_in_step(table: &[u32], at: usize, lag: u32, most: u32) -> u32
    requires { at + (block_numbers + entry_numbers) ≤ length table.now }
    ensures { result ≡ 0 → (i : ℕ) → i < block_lines → InStep table.now (at + entry_numbers * i) lag most }
{
    let high = wide(most);
    let last = pair(table, at + BLOCK);
    if high <= last {
        return 1;
    }
    for i in (0..LINES).rev() {
        let told = in_step(table, at + ENTRY_NUMBERS * i, lag, last, high);
        if told != 0 {
            return told;
        }
    }
    0
}

// Blocks of lines in step with a lag are passed, while there are any before the line at `last`. The answer is where that ended, which a
// `for` would not keep.
fn pass_blocks(table: &[u32], last: usize, from: usize, lag: u32, most: u32) -> usize
    requires { last + entry_numbers ≤ length table.now }
    ensures { StepLines table.now last lag most from result }
{
    if last < BLOCK {
        return from;
    }
    let stop = last - BLOCK;
    let mut at = from;
    while at <= stop {
        if !all_break(table, at) {
            return at;
        }
        let told = all_in_step(table, at, lag, most);
        if told != 0 {
            return at;
        }
        at += BLOCK;
    }
    at
}

// Plain lines are skipped that are in step with the line before them. That one begins the first block, if it ends as they do: of a
// line in step, what it reached is held to the line behind it.
pub fn skip_in_step(table: &[u32], last: usize, from: usize, most: u32) -> usize
    requires { (entry_numbers ≤ from) × (last + entry_numbers ≤ length table.now) × (from ≤ length table.now) }
    ensures { PlainLines table.now last most from result }
{
    let before = from - ENTRY_NUMBERS;
    let start = table[before];
    let chars = table[before + BEFORE];
    if start < chars {
        return from;
    }
    let at = pass_blocks(table, last, before, wrapping_sub_u32(chars, start), most);
    at.max(from)
}
