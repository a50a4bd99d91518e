// The tests of a fresh layout, in their order. None of them writes anything (refusal 1, refusal 2, refusal 3, refusal 4, refusal 8).
ghost use Rattle.std.specs.Prelude.{◌≡◌, length};
ghost use Rattle.meaning.specs.Checks.{check_room};
ghost use Rattle.meaning.specs.Table.{entry_numbers, event_numbers, capacity_of};
ghost use Rattle.meaning.specs.Calls.{check_layout};
ghost use Rattle.rows.specs.RowsFrom.{TextReady, entries_of};
ghost use Rattle.layout.specs.EventsFrom.{events_of};

use crate::events::count_events;
use checks::room::check_room;
use checks::settings::check_settings;
use checks::text::check_text;
use meaning::refusals::Refusal;
use meaning::settings::Settings;
use meaning::sizes::{ENTRY_NUMBERS, EVENT_NUMBERS};
use rows::lines::count_lines;

// Refusal 8 of the table. A text has at most one line more than bytes, so a table with room for so many needs no count first.
fn check_lines(s: Settings, text: &[u8], table: &[u32]) -> Result<(), Refusal>
    requires { TextReady s text.now }
    ensures { result ≡ check_room (capacity_of entry_numbers table.now) (length (entries_of s text.now)) }
{
    let room = table.len() / ENTRY_NUMBERS;
    if text.len() < room {
        return Ok(());
    }
    check_room(room, count_lines(text, s))
}

// Refusals 1, 2, 3, 4 and 8 of a layout (7 never arises).
pub fn check_layout(s: Settings, text: &[u8], table: &[u32]) -> Result<(), Refusal>
    ensures { result ≡ check_layout s text.now table.now }
{
    check_settings(s)?;
    check_text(text)?;
    check_lines(s, text, table)
}

// Refusal 8 of the event buffer. A text has no more events than bytes.
pub fn check_events(s: Settings, text: &[u8], events: &[u32]) -> Result<(), Refusal>
    requires { TextReady s text.now }
    ensures { result ≡ check_room (capacity_of event_numbers events.now) (length (events_of s text.now)) }
{
    let room = events.len() / EVENT_NUMBERS;
    if text.len() <= room {
        return Ok(());
    }
    check_room(room, count_events(text, s))
}
