// Lines that are found and not walked, written one after the other (rule 10).
ghost use Rattle.std.specs.Prelude.{◌≡◌};
ghost use Rattle.rows.specs.Found.{reached_at};
ghost use Rattle.rows.specs.Drawers.{CanGo, GoneOn};
ghost use Rattle.rows.specs.DrawnLines.{CanPass, passed_stand};

use crate::cuts::{write_cuts, write_long};
use crate::drawer::Drawer;
use crate::line::is_last;
use crate::plain::{Passed, plain_stand, write_plain};
use crate::ragged::Ragged;
use parser::lexeme::Lexeme;
use placing::long_word::long_known;
use placing::plain::ended_entry;
use placing::told::told_row;
use stands::stand::Stand;
use steps::first::Known;
use table::entries::write_entry;

// How many lines are in the table, how many events in the buffer, and where the next line is to be laid, if any is left.
#[derive(Clone, Copy)]
pub struct Reached {
    pub lines: usize,
    pub events: usize,
    pub stand: Option<Stand>,
}

fn reached_at(p: Passed) -> Reached
    ensures { result ≡ reached_at p }
{
    let stand = plain_stand(p.at, p.before);
    Reached {
        lines: p.lines,
        events: p.events,
        stand: Some(stand),
    }
}

// As many lines as follow one another and are told by their bytes: those of plain words as many as there are, then those of a word that is
// wider than the box, or one of others, and so on.
fn write_told<D: Drawer>(
    text: &[u8],
    r: Ragged,
    table: &mut [u32],
    events: &mut [u32],
    from: Passed,
) -> Reached
    requires { CanPass (D.to_draw r.settings text.now) r.settings text.now table.old from }
    ensures { GoneOn (D.to_draw r.settings text.now) r.settings text.now table.old events.old from.lines from.events (passed_stand from) table.new events.new result.lines result.events result.stand }
{
    let mut here = from;
    loop {
        let far = write_plain::<D>(text, r, table, events, here);
        here = write_long::<D>(text, r, table, events, far);
        if far.at.0 < here.at.0 {
            continue;
        }
        let Some(row) = told_row(text, here.at.0 as usize, r.most) else {
            return reached_at(here);
        };
        let columns = row.columns.0;
        let entry = ended_entry(
            r.settings,
            here.at,
            columns,
            row.reach,
            here.before,
            row.ended,
        );
        write_entry(table, here.lines, entry);
        let stand = plain_stand(here.at, here.before);
        here.events = D::line(text, r.settings, stand, entry, events, here.events);
        here.lines += 1;
        if is_last(row.ended) {
            return Reached {
                lines: here.lines,
                events: here.events,
                stand: None,
            };
        }
        here.at = row.next;
        here.before.0 += columns + 1;
    }
}

// Is a word known, or another token.
pub fn is_known(known: Known) -> bool {
    known.first.is_some()
}

// As many such lines as follow from a stand on where nothing is resumed. There may be none: where a word is known no other is looked for.
pub fn write_on<D: Drawer>(
    text: &[u8],
    r: Ragged,
    table: &mut [u32],
    lines: usize,
    events: &mut [u32],
    drawn: usize,
    stand: Stand,
) -> Reached
    requires can { CanGo (D.to_draw r.settings text.now) r.settings text.now table.old lines drawn stand }
    requires chars_value { stand.rest.chars.0 ≡ 0 }
    ensures { GoneOn (D.to_draw r.settings text.now) r.settings text.now table.old events.old lines drawn stand table.new events.new result.lines result.events result.stand }
{
    let from = Passed {
        lines,
        events: drawn,
        at: stand.at,
        before: stand.before,
    };
    if !is_known(stand.known) {
        return write_told::<D>(text, r, table, events, from);
    }
    let Some(word) = long_known(text, stand.at.0 as usize, stand.known, r.most) else {
        return Reached {
            lines,
            events: drawn,
            stand: Some(stand),
        };
    };
    reached_at(write_cuts::<D>(text, r, table, events, from, word))
}
