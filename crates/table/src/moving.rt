// The old lines that follow after an edit, moved within their table (laying again).
ghost use Rattle.std.specs.Prelude.{◌+◌, ◌*◌, ◌≤◌, ◌<◌, ◌≡◌, true, length, get_or};
ghost use Rattle.meaning.specs.Table.{entry_numbers};
ghost use Rattle.meaning.specs.Edit.{moved, moved_rest};
ghost use Rattle.table.specs.Moving.{MovableEdit, MovableOffset, MovableShift, MovableEntry, Movable, moved_by, line_moved, lines_moved, Restless, Forward};

use crate::edited::{Shift, moved_number, shifted_count};
use crate::entries::{read_entry, write_entry};
use meaning::counts::{Chars, Offset};
use meaning::edit::Edit;
use meaning::line::{Entry, Rest};
use meaning::sizes::{BEFORE, ENTRY_NUMBERS, REACH, REST_END};

// The numbers of two lines and of three.
const TWO_LINES: usize = 2 * ENTRY_NUMBERS;

const THREE_LINES: usize = 3 * ENTRY_NUMBERS;

fn moved_offset(x: Offset, edit: Edit) -> Offset
    requires { MovableEdit edit × MovableOffset edit x.0 }
    ensures { result.0 ≡ moved edit x.0 }
{
    Offset(moved_number(x.0, edit))
}

// An end of 0 says that there is no rest, and stays.
fn moved_rest(rest: Rest, edit: Edit) -> Rest
    requires { MovableEdit edit × (0 < rest.end.0 → MovableOffset edit rest.end.0) }
    ensures { result ≡ moved_rest edit rest }
{
    if rest.end.0 == 0 {
        return rest;
    }
    Rest {
        end: moved_offset(rest.end, edit),
        ..rest
    }
}

// Start, rest, reach and the characters before are moved, all else stays.
pub fn moved_entry(e: Entry, shift: Shift) -> Entry
    requires { MovableShift shift × MovableEntry shift e }
    ensures { result ≡ moved_by shift e }
{
    Entry {
        start: moved_offset(e.start, shift.edit),
        rest: moved_rest(e.rest, shift.edit),
        reach: moved_offset(e.reach, shift.edit),
        before: Chars(shifted_count(e.before.0, shift)),
        ..e
    }
}

// Line `from`, moved, written to line `to`.
fn move_line(table: &mut [u32], from: usize, to: usize, shift: Shift)
    requires { Movable table.old from to 1 shift }
    ensures { table.new ≡ line_moved table.old from to shift }
{
    let after = moved_entry(read_entry(table, from), shift);
    write_entry(table, to, after);
}

// Line k, which has no rest, moved where it stands: its other numbers are not touched.
fn move_plain(table: &mut [u32], k: usize, shift: Shift)
    requires { Movable table.old k k 1 shift × (get_or table.old (entry_numbers * k + 1) 0 ≡ 0) }
    ensures { table.new ≡ line_moved table.old k k shift }
{
    let at = ENTRY_NUMBERS * k;
    table[at] = moved_number(table[at], shift.edit);
    table[at + REACH] = moved_number(table[at + REACH], shift.edit);
    table[at + BEFORE] = shifted_count(table[at + BEFORE], shift);
}

// Line k, moved where it stands.
fn move_here(table: &mut [u32], k: usize, shift: Shift)
    requires { Movable table.old k k 1 shift }
    ensures { table.new ≡ line_moved table.old k k shift }
{
    if table[ENTRY_NUMBERS * k + REST_END] == 0 {
        move_plain(table, k, shift);
        return;
    }
    move_line(table, k, k, shift);
}

// Has none of the four lines from line k on a rest.
fn rests_nowhere(table: &[u32], k: usize) -> bool
    requires { entry_numbers * (k + 4) ≤ length table.now }
    ensures { result ≡ true → Restless table.now k 4 }
{
    let at = ENTRY_NUMBERS * k;
    (table[at + REST_END] == 0)
        & (table[at + ENTRY_NUMBERS + REST_END] == 0)
        & (table[at + TWO_LINES + REST_END] == 0)
        & (table[at + THREE_LINES + REST_END] == 0)
}

// Lines moved where they stand, four at a time, while four follow that have no rest. The answer is how many are moved, which a `for`
// in steps of four would not keep.
fn move_fours(table: &mut [u32], from: usize, count: usize, shift: Shift) -> usize
    requires { Movable table.old from from count shift }
    ensures { Forward table.old from from count shift table.new result }
{
    if count < 4 {
        return 0;
    }
    let stop = count - 4;
    let mut i: usize = 0;
    while i <= stop {
        if !rests_nowhere(table, from + i) {
            return i;
        }
        move_plain(table, from + i, shift);
        move_plain(table, from + (i + 1), shift);
        move_plain(table, from + (i + 2), shift);
        move_plain(table, from + (i + 3), shift);
        i += 4;
    }
    i
}

// Lines moved where they stand: one by itself where four do not go together. So a turn moves as many as it finds, and no `for` counts.
fn move_still(table: &mut [u32], from: usize, count: usize, shift: Shift)
    requires { Movable table.old from from count shift }
    ensures { table.new ≡ lines_moved table.old from from count shift }
{
    let mut i: usize = 0;
    loop {
        i += move_fours(table, from + i, count - i, shift);
        if count <= i {
            return;
        }
        move_here(table, from + i, shift);
        i += 1;
    }
}

// Lines moved toward the table's front: the first of them first, so that none is written over before it is read.
fn move_forward(table: &mut [u32], from: usize, to: usize, count: usize, shift: Shift)
    requires { Movable table.old from to count shift × (to ≤ from) }
    ensures { table.new ≡ lines_moved table.old from to count shift }
{
    for i in 0..count {
        move_line(table, from + i, to + i, shift);
    }
}

// Lines moved toward the table's end: the last of them first.
fn move_back(table: &mut [u32], from: usize, to: usize, count: usize, shift: Shift)
    requires { Movable table.old from to count shift × (from ≤ to) }
    ensures { table.new ≡ lines_moved table.old from to count shift }
{
    for i in (0..count).rev() {
        move_line(table, from + i, to + i, shift);
    }
}

// So many lines from line `from` on, moved, written from line `to` on. The two stretches may overlap.
pub fn move_lines(table: &mut [u32], from: usize, to: usize, count: usize, shift: Shift)
    requires { Movable table.old from to count shift }
    ensures { table.new ≡ lines_moved table.old from to count shift }
{
    if from == to {
        move_still(table, to, count, shift);
        return;
    }
    if to <= from {
        move_forward(table, from, to, count, shift);
        return;
    }
    move_back(table, from, to, count, shift);
}
