// The numbers of one line, read from a table and written to it (rule 12).
ghost use Rattle.std.specs.Prelude.{◌+◌, ◌*◌, ◌≤◌, ◌≡◌, length, drop};
ghost use Rattle.meaning.specs.Table.{entry_numbers, of_entry, entry_in};
ghost use Rattle.table.specs.Numbers.{put_numbers};

use meaning::counts::{Chars, Offset, Pixels};
use meaning::line::{Entry, Rest};
use meaning::sizes::{
    BEFORE, DROPPED, ENDING, ENTRY_NUMBERS, EXTRA, LEFT, REACH, REST_COUNT, REST_END, SPACE, WIDTH,
};

// Line k, from its eleven numbers.
pub fn read_entry(table: &[u32], k: usize) -> Entry
    requires { entry_numbers * k + entry_numbers ≤ length table.now }
    ensures { result ≡ entry_in (drop (entry_numbers * k) table.now) }
{
    let at = ENTRY_NUMBERS * k;
    let rest = Rest {
        end: Offset(table[at + REST_END]),
        count: Chars(table[at + REST_COUNT]),
    };
    Entry {
        start: Offset(table[at]),
        rest,
        ending: table[at + ENDING],
        left: Pixels(table[at + LEFT]),
        space: Pixels(table[at + SPACE]),
        extra: Pixels(table[at + EXTRA]),
        width: Pixels(table[at + WIDTH]),
        dropped: Chars(table[at + DROPPED]),
        reach: Offset(table[at + REACH]),
        before: Chars(table[at + BEFORE]),
    }
}

// The eleven numbers of line k.
pub fn write_entry(table: &mut [u32], k: usize, e: Entry)
    requires { entry_numbers * k + entry_numbers ≤ length table.old }
    ensures { table.new ≡ put_numbers table.old (entry_numbers * k) (of_entry e) }
{
    let at = ENTRY_NUMBERS * k;
    table[at] = e.start.0;
    table[at + REST_END] = e.rest.end.0;
    table[at + REST_COUNT] = e.rest.count.0;
    table[at + ENDING] = e.ending;
    table[at + LEFT] = e.left.0;
    table[at + SPACE] = e.space.0;
    table[at + EXTRA] = e.extra.0;
    table[at + WIDTH] = e.width.0;
    table[at + DROPPED] = e.dropped.0;
    table[at + REACH] = e.reach.0;
    table[at + BEFORE] = e.before.0;
}
