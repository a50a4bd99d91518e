// Lines of plain words, found and written one after the other: nothing of them goes through memory but their numbers (rule 10).
ghost use Rattle.std.specs.Prelude.{◌≡◌};
ghost use Rattle.rows.specs.Found.{plain_stand};
ghost use Rattle.rows.specs.DrawnLines.{CanPass, PassedTo};

use crate::drawer::Drawer;
use crate::ragged::Ragged;
use meaning::counts::{Chars, Offset};
use placing::plain::{plain_entry, plain_row};
use stands::stand::Stand;
use steps::ending::nothing_left;
use steps::first::nothing_known;
use table::entries::write_entry;

// How many lines are in the table, how many events in the buffer, where the next line starts, which resumes nothing, and the characters
// before it.
#[derive(Clone, Copy)]
pub struct Passed {
    pub lines: usize,
    pub events: usize,
    pub at: Offset,
    pub before: Chars,
}

// Before a line that resumes nothing, where no word is known.
pub fn plain_stand(at: Offset, before: Chars) -> Stand
    ensures { result ≡ plain_stand at.0 before.0 }
{
    let rest = nothing_left();
    let known = nothing_known();
    Stand {
        at,
        before,
        rest,
        known,
    }
}

// As many such lines as follow one another.
pub fn write_plain<D: Drawer>(
    text: &[u8],
    r: Ragged,
    table: &mut [u32],
    events: &mut [u32],
    from: Passed,
) -> Passed
    requires { CanPass (D.to_draw r.settings text.now) r.settings text.now table.old from }
    ensures { PassedTo (D.to_draw r.settings text.now) r.settings text.now table.old events.old from table.new events.new result }
{
    let mut here = from;
    loop {
        let Some(line) = plain_row(text, here.at.0 as usize, r.most) else {
            return here;
        };
        let end = line.end.0;
        let columns = end - here.at.0;
        let entry = plain_entry(r.settings, here.at, columns, line.reach, here.before);
        write_entry(table, here.lines, entry);
        here.events = D::plain(text, r, here, end, entry, events);
        here.lines += 1;
        here.at.0 = end + 1;
        here.before.0 += columns + 1;
    }
}
