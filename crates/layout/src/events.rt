// The events of a text's lines, one line after the other: counted, and drawn as each line is written (rule 10, rule 13).
ghost use Rattle.std.specs.Prelude.{◌*◌, ◌≤◌, ◌≡◌, length};
ghost use Rattle.meaning.specs.Table.{entry_numbers, of_entry, of_all, written};
ghost use Rattle.table.specs.Numbers.{put_events};
ghost use Rattle.rows.specs.RowsFrom.{TextReady, entries_of};
ghost use Rattle.layout.specs.EventsFrom.{events_of};

use crate::seen::Seen;
use meaning::settings::Settings;
use rows::lines::{Both, pass_lines, write_all};

// The events of all lines of a text, put into a buffer as far as it has room. How many there are.
pub fn draw_lines(text: &[u8], s: Settings, events: &mut [u32]) -> usize
    requires { TextReady s text.now }
    ensures value { result ≡ length (events_of s text.now) }
    ensures events_after { events.new ≡ put_events events.old 0 (events_of s text.now) }
{
    pass_lines::<Seen>(text, s, events).events
}

// How many events a text has: drawn into a buffer that has no room for one.
pub fn count_events(text: &[u8], s: Settings) -> usize
    requires { TextReady s text.now }
    ensures { result ≡ length (events_of s text.now) }
{
    let mut none = [0u32; 1];
    draw_lines(text, s, &mut none)
}

// All lines of a text, each laid once: written to a table that has room for them, and their events put into a buffer as far as it has
// room.
pub fn write_and_draw(text: &[u8], s: Settings, table: &mut [u32], events: &mut [u32]) -> Both
    requires text_ready { TextReady s text.now }
    requires text_in_bounds { entry_numbers * length (entries_of s text.now) ≤ length table.old }
    ensures lines_value { result.lines ≡ length (entries_of s text.now) }
    ensures events_value { result.events ≡ length (events_of s text.now) }
    ensures table_after { table.new ≡ written table.old (of_all of_entry (entries_of s text.now)) }
    ensures events_after { events.new ≡ put_events events.old 0 (events_of s text.now) }
{
    write_all::<Seen>(text, s, table, events)
}
