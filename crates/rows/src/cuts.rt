// Lines of one word that is wider than the box, found and written one after the other (rule 8, rule 10).
ghost use Rattle.std.specs.Prelude.{◌<◌};
ghost use Rattle.placing.specs.LeftWords.{LongWord};
ghost use Rattle.rows.specs.DrawnLines.{CanPass, PassedTo};

use crate::drawer::Drawer;
use crate::plain::Passed;
use crate::ragged::Ragged;
use parser::scan::Scanned;
use placing::cuts::cut_row;
use placing::long_word::long_word;
use placing::plain::plain_entry;
use table::entries::write_entry;

// As many lines as the word fills that stands there. Its end is looked for once. What is left of the word is what each turn asks for: a `for`
// would count the turns beside it.
pub fn write_cuts<D: Drawer>(
    text: &[u8],
    r: Ragged,
    table: &mut [u32],
    events: &mut [u32],
    from: Passed,
    word: Scanned,
) -> Passed
    requires can { CanPass (D.to_draw r.settings text.now) r.settings text.now table.old from }
    requires long_word { LongWord text.now from.at.0 r.most word }
    ensures passed { PassedTo (D.to_draw r.settings text.now) r.settings text.now table.old events.old from table.new events.new result }
    ensures start_lt_at { from.at.0 < result.at.0 }
{
    let mut here = from;
    let mut left = word.chars.0;
    while r.most < left {
        let next = cut_row(text, here.at.0 as usize, word, left, r.most);
        let entry = plain_entry(r.settings, here.at, r.most, word.reach, here.before);
        write_entry(table, here.lines, entry);
        here.events = D::part(text, r, here, next, word.weight.0, entry, events);
        here.lines += 1;
        here.at.0 = next as u32;
        here.before.0 += r.most;
        left -= r.most;
    }
    here
}

// The same, if the word there is wider than the box. Else it stays where it is.
pub fn write_long<D: Drawer>(
    text: &[u8],
    r: Ragged,
    table: &mut [u32],
    events: &mut [u32],
    from: Passed,
) -> Passed
    requires { CanPass (D.to_draw r.settings text.now) r.settings text.now table.old from }
    ensures { PassedTo (D.to_draw r.settings text.now) r.settings text.now table.old events.old from table.new events.new result }
{
    let Some(word) = long_word(text, from.at.0 as usize, r.most) else {
        return from;
    };
    write_cuts::<D>(text, r, table, events, from, word)
}
