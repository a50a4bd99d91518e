// The lines of a text, one after the other: counted, and written to a table, with what is done with their events (rule 10, rule 13).
ghost use Rattle.std.specs.Prelude.{◌*◌, ◌/◌, ◌≤◌, ◌≡◌, length};
ghost use Rattle.meaning.specs.Table.{entry_numbers, of_entry, of_all, written};
ghost use Rattle.rows.specs.RowsFrom.{TextReady, entries_of};
ghost use Rattle.rows.specs.DrawnLines.{AllPut};

use crate::drawer::{Drawer, Unseen};
use crate::found::write_on;
use crate::ragged::Ragged;
use crate::stand::lay_row;
use meaning::settings::Settings;
use stands::stand::{at_start, next_stand};
use table::entries::write_entry;

// How many lines a text has, and how many events are put.
#[derive(Clone, Copy)]
pub struct Both {
    pub lines: usize,
    pub events: usize,
}

// All lines of a text, of which none is written, and their events. The loops here are no `for`: that a line is the last is known when it is laid.
pub fn pass_lines<D: Drawer>(text: &[u8], s: Settings, events: &mut [u32]) -> Both
    requires { TextReady s text.now }
    ensures { AllPut (D.to_draw s text.now) s text.now result.lines events.old events.new result.events }
{
    let mut n: usize = 0;
    let mut k: usize = 0;
    let mut stand = at_start(text);
    loop {
        let row = lay_row(text, s, stand);
        n += 1;
        k = D::line(text, s, stand, row.entry, events, k);
        if row.last {
            return Both {
                lines: n,
                events: k,
            };
        }
        stand = next_stand(text, stand, row);
    }
}

// How many lines a text has.
pub fn count_lines(text: &[u8], s: Settings) -> usize
    requires { TextReady s text.now }
    ensures { result ≡ length (entries_of s text.now) }
{
    let mut none = [0u32; 1];
    pass_lines::<Unseen>(text, s, &mut none).lines
}

// All lines of a text, each laid once by the step: written to a table that has room for them, and their events put.
fn write_each<D: Drawer>(text: &[u8], s: Settings, table: &mut [u32], events: &mut [u32]) -> Both
    requires text_ready { TextReady s text.now }
    requires text_in_bounds { entry_numbers * length (entries_of s text.now) ≤ length table.old }
    ensures all { AllPut (D.to_draw s text.now) s text.now result.lines events.old events.new result.events }
    ensures table_after { table.new ≡ written table.old (of_all of_entry (entries_of s text.now)) }
{
    let mut n: usize = 0;
    let mut k: usize = 0;
    let mut stand = at_start(text);
    loop {
        let row = lay_row(text, s, stand);
        write_entry(table, n, row.entry);
        n += 1;
        k = D::line(text, s, stand, row.entry, events, k);
        if row.last {
            return Both {
                lines: n,
                events: k,
            };
        }
        stand = next_stand(text, stand, row);
    }
}

// The same by settings that justify no line: those that are found so, and the others by the step.
fn write_found<D: Drawer>(text: &[u8], r: Ragged, table: &mut [u32], events: &mut [u32]) -> Both
    requires text_ready { TextReady r.settings text.now }
    requires text_in_bounds { entry_numbers * length (entries_of r.settings text.now) ≤ length table.old }
    ensures all { AllPut (D.to_draw r.settings text.now) r.settings text.now result.lines events.old events.new result.events }
    ensures table_after { table.new ≡ written table.old (of_all of_entry (entries_of r.settings text.now)) }
{
    let mut n: usize = 0;
    let mut k: usize = 0;
    let mut stand = at_start(text);
    loop {
        if stand.rest.chars.0 == 0 {
            let far = write_on::<D>(text, r, table, n, events, k, stand);
            let Some(next) = far.stand else {
                return Both {
                    lines: far.lines,
                    events: far.events,
                };
            };
            n = far.lines;
            k = far.events;
            stand = next;
        }
        let row = lay_row(text, r.settings, stand);
        write_entry(table, n, row.entry);
        n += 1;
        k = D::line(text, r.settings, stand, row.entry, events, k);
        if row.last {
            return Both {
                lines: n,
                events: k,
            };
        }
        stand = next_stand(text, stand, row);
    }
}

// The same by any settings.
pub fn write_all<D: Drawer>(text: &[u8], s: Settings, table: &mut [u32], events: &mut [u32]) -> Both
    requires text_ready { TextReady s text.now }
    requires text_in_bounds { entry_numbers * length (entries_of s text.now) ≤ length table.old }
    ensures all { AllPut (D.to_draw s text.now) s text.now result.lines events.old events.new result.events }
    ensures table_after { table.new ≡ written table.old (of_all of_entry (entries_of s text.now)) }
{
    if 2 < s.alignment {
        return write_each::<D>(text, s, table, events);
    }
    let r = Ragged {
        settings: s,
        most: s.width.0 / s.glyph.0,
    };
    write_found::<D>(text, r, table, events)
}

// All lines of a text, written to a table that has room for them.
pub fn write_lines(text: &[u8], s: Settings, table: &mut [u32]) -> usize
    requires text_ready { TextReady s text.now }
    requires text_in_bounds { entry_numbers * length (entries_of s text.now) ≤ length table.old }
    ensures value { result ≡ length (entries_of s text.now) }
    ensures table_after { table.new ≡ written table.old (of_all of_entry (entries_of s text.now)) }
{
    let mut none = [0u32; 1];
    write_all::<Unseen>(text, s, table, &mut none).lines
}
