// Where laying again stops: at the first line that an old line meets, or at the text's end. Nothing is written.
// A table goes with the number of its lines beside it: heights says at `height_of` why.
ghost use Rattle.std.specs.Prelude.{◌+◌, ◌*◌, ◌≤◌, ◌≡◌, length};
ghost use Rattle.meaning.specs.Table.{entry_numbers, entries_in};
ghost use Rattle.again.specs.Relaid.{count_of};
ghost use Rattle.table.specs.LinesFrom.{lines_from};
ghost use Rattle.again.specs.Behind.{rest_behind, RestLow};
ghost use Rattle.edits.specs.Pointer.{passing, meets_first};
ghost use Rattle.again.specs.AgainFrom.{again_from};
ghost use Rattle.again.specs.Seeking.{FindReady, found_at, found_in};

use edits::meeting::{meets_line, stands_before};
use meaning::counts::{Chars, Offset};
use meaning::edit::Edit;
use meaning::line::Rest;
use meaning::settings::Settings;
use meaning::sizes::{BEFORE, ENTRY_NUMBERS};
use rows::stand::lay_row;
use stands::stand::{Stand, next_stand};
use steps::step::Resumed;
use table::entries::read_entry;

// How many lines are laid, the first old line that is kept, and the characters that stand before it now; the count of old lines
// and 0 if none is.
#[derive(Clone, Copy)]
pub struct Found {
    pub laid: usize,
    pub kept: usize,
    pub before: Chars,
}

fn found_at(laid: usize, kept: usize, before: Chars) -> Found
    ensures { result ≡ found_at laid kept before }
{
    Found { laid, kept, before }
}

// What is held before a line of a part that stands behind so many bytes, as an entry of the whole says it.
fn rest_behind(base: Offset, r: Resumed) -> Rest
    requires { RestLow base.0 r }
    ensures { result ≡ rest_behind base.0 r }
{
    if r.chars.0 == 0 {
        return Rest {
            end: Offset(0),
            count: Chars(0),
        };
    }
    let end = Offset(base.0 + r.end.0);
    Rest {
        end,
        count: r.count,
    }
}

// The first old line, from line j on, that a line from a start on may meet.
fn skip_before(table: &[u32], lines: usize, j: usize, edit: Edit, start: Offset) -> usize
    requires { (entry_numbers * lines ≤ length table.now) × (j ≤ lines) }
    ensures { result ≡ j + passing edit start.0 (lines_from table.now lines j) }
{
    for i in j..lines {
        if !stands_before(edit, start, table[ENTRY_NUMBERS * i]) {
            return i;
        }
    }
    lines
}

// Is old line j, if there is one, met by a line with this start and rest.
fn meets_first(table: &[u32], lines: usize, j: usize, edit: Edit, start: Offset, rest: Rest) -> bool
    requires { entry_numbers * lines ≤ length table.now }
    ensures { result ≡ meets_first edit start.0 rest (lines_from table.now lines j) }
{
    if lines <= j {
        return false;
    }
    meets_line(edit, start, rest, read_entry(table, j))
}

// The characters that stood before old line j, 0 if there is none.
pub fn count_before(table: &[u32], lines: usize, j: usize) -> Chars
    requires { entry_numbers * lines ≤ length table.now }
    ensures { result.0 ≡ count_of (lines_from table.now lines j) }
{
    if lines <= j {
        return Chars(0);
    }
    let at = ENTRY_NUMBERS * j;
    let count = table[at + BEFORE];
    Chars(count)
}

// Lays lines from a stand on, before each of which the old lines from line k on are looked at. It ends where the text or a line met ends
// it, so it is no `for`.
pub fn find_stop(
    part: &[u8],
    s: Settings,
    table: &[u32],
    lines: usize,
    k: usize,
    base: Offset,
    edit: Edit,
    front: Stand,
) -> Found
    requires { FindReady s part.now table.now lines k base.0 edit front }
    ensures value { result ≡ found_in lines (again_from s part.now edit (entries_in lines table.now) base.0 front) }
    ensures before_bound { result.before.0 ≤ 131071 }
{
    let mut n: usize = 0;
    let mut j: usize = k;
    let mut stand = front;
    loop {
        let first = base.0 + stand.at.0;
        let start = Offset(first);
        j = skip_before(table, lines, j, edit, start);
        let rest = rest_behind(base, stand.rest);
        if meets_first(table, lines, j, edit, start, rest) {
            return found_at(n, j, stand.before);
        }
        let row = lay_row(part, s, stand);
        n += 1;
        if row.last {
            return found_at(n, lines, Chars(0));
        }
        stand = next_stand(part, stand, row);
    }
}
