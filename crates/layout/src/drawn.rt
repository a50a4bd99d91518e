// The fresh layout of a text with what is drawn: a public call (rule 10, rule 13, refusal 1, refusal 2, refusal 3, refusal 4, refusal 8).
ghost use Rattle.std.specs.Prelude.{◌≡◌};
ghost use Rattle.meaning.specs.Calls.{drawing_answer, drawing_table, drawing_events};

use crate::checked::{check_events, check_layout};
use crate::events::write_and_draw;
use meaning::answers::Drawing;
use meaning::refusals::Refusal;
use meaning::settings::Settings;

// Each line's eleven numbers and each event's six; or refusal 1, 2, 3, 4 or 8, of the table before the event buffer. A refusal writes
// nothing.
pub fn layout_with_events(
    s: Settings,
    text: &[u8],
    table: &mut [u32],
    events: &mut [u32],
) -> Result<Drawing, Refusal>
    ensures value { result ≡ drawing_answer s text.now table.old events.old }
    ensures table_after { table.new ≡ drawing_table s text.now table.old events.old }
    ensures events_after { events.new ≡ drawing_events s text.now table.old events.old }
{
    check_layout(s, text, table)?;
    check_events(s, text, events)?;
    let both = write_and_draw(text, s, table, events);
    Ok(Drawing {
        lines: both.lines as u64,
        events: both.events as u64,
    })
}
