// Lines as most are, without a rest and not the last, told by few tests and skipped one by one or eight at a time (refusal 5).
// Table and place are two arguments with a clause on both: a struct of them would say `x.entry.table.now` in every clause, and a slice of
// two lines would be cut once more for each test.
ghost use Rattle.std.specs.Prelude.{◌≡◌, ℕ, ◌+◌, ◌-◌, ◌*◌, ◌<◌, ◌≤◌, true, length};
ghost use Rattle.meaning.specs.Table.{entry_numbers};
ghost use Rattle.look.specs.Skipping.{block_lines, block_numbers, span, Paired, PlainEnd, Counted, Starts, Follows, PlainLine, PlainLines};

use meaning::sizes::{BEFORE, ENDING, ENTRY_NUMBERS, REACH, REST_COUNT};
use std::num::wrapping_sub_u64;

// So many lines are skipped at once, and so many numbers.
pub const LINES: usize = 8;

pub const BLOCK: usize = LINES * ENTRY_NUMBERS;

// How many numbers of 32 bits there are: in two numbers read as one, the second counts so many times.
pub const SPAN: u64 = 4294967296;

// A rest count of 0 and an end type of 3 behind it, read as one number.
const SOFT_END: u64 = 3 * SPAN;

pub fn wide(x: u32) -> u64
    ensures { (result ≡ x) × (result < span) }
{
    x as u64
}

// Two numbers side by side, as one.
pub fn pair(table: &[u32], at: usize) -> u64
    requires { at + 2 ≤ length table.now }
    ensures { Paired table.now at result }
{
    let first = wide(table[at]);
    let second = wide(table[at + 1]);
    first + SPAN * second
}

// Does the line at a number of the table break between words, and cut no run of spaces.
fn breaks_softly(table: &[u32], at: usize) -> bool
    requires { at + entry_numbers ≤ length table.now }
    ensures { result ≡ true → PlainEnd table.now at }
{
    pair(table, at + REST_COUNT) == SOFT_END
}

// Does it cut no run of spaces, and is it not the last.
fn ends_plainly(table: &[u32], at: usize) -> bool
    requires { at + entry_numbers ≤ length table.now }
    ensures { result ≡ true → PlainEnd table.now at }
{
    if breaks_softly(table, at) {
        return true;
    }
    if table[at + REST_COUNT] != 0 {
        return false;
    }
    table[at + ENDING] < 2
}

// 0 if a line starts behind the one before it as most do, without a rest, and its reach is at most `most`; else 1 or 2. The compiler
// joins tests of one answer, which takes longer than a branch for each. Whether it starts within the text is not asked: it does if
// the line after it starts within what it reached.
fn starting(table: &[u32], at: usize, most: u32) -> u32
    requires { (entry_numbers ≤ at) × (at + entry_numbers ≤ length table.now) }
    ensures { result ≡ 0 → Starts table.now at most }
{
    let before = at - ENTRY_NUMBERS;
    let start = pair(table, at);
    let reached = wide(table[before + REACH]);
    if reached < start {
        return 1;
    }
    let from = wide(table[before]);
    if start <= from {
        return 2;
    }
    if most < table[at + REACH] {
        return 1;
    }
    0
}

// 0 if it follows as most do: the characters before it are more than before the line before it, and at most its start; else 1 or 2,
// told apart for the compiler as in `starting`.
fn following(table: &[u32], at: usize, most: u32) -> u32
    requires { (entry_numbers ≤ at) × (at + entry_numbers ≤ length table.now) }
    ensures { result ≡ 0 → Follows table.now at most }
{
    let told = starting(table, at, most);
    if told != 0 {
        return told;
    }
    let chars = table[at + BEFORE];
    if chars <= table[at - ENTRY_NUMBERS + BEFORE] {
        return 2;
    }
    if table[at] < chars {
        return 1;
    }
    0
}

// The same, if no more characters than bytes stand before the line before it: one test tells that there are more characters before this
// one, by no more than its start is higher. What the two share is `starting`: a closure for what differs would take its contract besides,
// and no line less.
fn counted_on(table: &[u32], at: usize, most: u32) -> u32
    requires { (entry_numbers ≤ at) × (at + entry_numbers ≤ length table.now) }
    ensures { result ≡ 0 → Counted table.now (at - entry_numbers) → Follows table.now at most × Counted table.now at }
{
    let told = starting(table, at, most);
    if told != 0 {
        return told;
    }
    let before = at - ENTRY_NUMBERS;
    let fewer = wrapping_sub_u64(wide(table[before + BEFORE]), wide(table[at + BEFORE]));
    if fewer < wrapping_sub_u64(wide(table[before]), wide(table[at])) {
        return 2;
    }
    0
}

// Is it good, without a rest, and not the last, if it starts within the text.
fn line_is_plain(table: &[u32], at: usize, most: u32) -> bool
    requires { (entry_numbers ≤ at) × (at + entry_numbers ≤ length table.now) }
    ensures { result ≡ true → PlainLine table.now at most }
{
    if following(table, at, most) != 0 {
        return false;
    }
    ends_plainly(table, at)
}

// Do all lines of a block break between words.
pub fn all_break(table: &[u32], at: usize) -> bool
    requires { at + block_numbers ≤ length table.now }
    ensures { result ≡ true → (i : ℕ) → i < block_lines → PlainEnd table.now (at + entry_numbers * i) }
{
    for i in 0..LINES {
        if !breaks_softly(table, at + ENTRY_NUMBERS * i) {
            return false;
        }
    }
    true
}

// 0 if all lines of a block follow as most do; else 1 or 2, told apart for the compiler as in `starting`.
fn all_following(table: &[u32], at: usize, most: u32) -> u32
    requires { (entry_numbers ≤ at) × (at + block_numbers ≤ length table.now) }
    ensures { result ≡ 0 → (i : ℕ) → i < block_lines → Follows table.now (at + entry_numbers * i) most }
{
    let before = at - ENTRY_NUMBERS;
    if table[before] < table[before + BEFORE] {
        return 1;
    }
    for i in 0..LINES {
        let told = counted_on(table, at + ENTRY_NUMBERS * i, most);
        if told != 0 {
            return told;
        }
    }
    0
}

// How many characters fewer than bytes stand before the line at a number of the table, counted down from 2^64.
fn lag_at(table: &[u32], at: usize) -> u64
    requires { at + entry_numbers ≤ length table.now }
{
    wrapping_sub_u64(wide(table[at + BEFORE]), pair(table, at))
}

// Where the last block may start that is skipped by these tests: where this one does, if its lines and those of the next block add as
// many bytes as characters to the line before them, and reach no further than these. There are fewer tests for such (`in_step.rt`).
fn last_block(table: &[u32], last: usize, at: usize, stop: usize) -> usize
    requires { (entry_numbers ≤ at) × (at + block_numbers ≤ length table.now) × (at ≤ stop) × (last + entry_numbers ≤ length table.now) }
    ensures { result ≤ stop }
{
    let end = at + BLOCK - ENTRY_NUMBERS;
    let lag = lag_at(table, at - ENTRY_NUMBERS);
    if lag != lag_at(table, end) {
        return stop;
    }
    let ahead = end + BLOCK;
    if last < ahead {
        return stop;
    }
    if table[ahead] < table[end + REACH] {
        return stop;
    }
    if lag != lag_at(table, ahead) {
        return stop;
    }
    at
}

// Blocks of plain lines are skipped, up to one with as many bytes as characters and while there are any before the line at `last`.
// What their lines end with is asked first: it is there that most of the others differ. A turn may move the end, so it is no `for`.
pub fn skip_blocks(table: &[u32], last: usize, from: usize, most: u32) -> usize
    requires { (entry_numbers ≤ from) × (last + entry_numbers ≤ length table.now) }
    ensures { PlainLines table.now last most from result }
{
    if last < BLOCK {
        return from;
    }
    let mut stop = last - BLOCK;
    let mut at = from;
    while at <= stop {
        if !all_break(table, at) {
            return at;
        }
        let told = all_following(table, at, most);
        if told != 0 {
            return at;
        }
        stop = last_block(table, last, at, stop);
        at += BLOCK;
    }
    at
}

// Plain lines are skipped one by one, up to the line at `last`. The answer is where that ended, which a `for` would not keep.
pub fn skip_singly(table: &[u32], last: usize, from: usize, most: u32) -> usize
    requires { (entry_numbers ≤ from) × (last + entry_numbers ≤ length table.now) }
    ensures { PlainLines table.now last most from result }
{
    let mut at = from;
    while at < last {
        if !line_is_plain(table, at, most) {
            return at;
        }
        at += ENTRY_NUMBERS;
    }
    at
}
