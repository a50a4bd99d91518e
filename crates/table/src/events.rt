// The numbers of one event, written to a buffer (rule 13).
ghost use Rattle.std.specs.Prelude.{◌≡◌, ◌≤◌};
ghost use Rattle.meaning.specs.Table.{event_numbers, of_event};
ghost use Rattle.table.specs.Numbers.{put_if_room};

use meaning::line::Event;
use meaning::sizes::EVENT_NUMBERS;

// Event k's six numbers, if the buffer holds them; else nothing.
pub fn put_event(events: &mut [u32], k: usize, e: Event)
    requires { k ≤ 1000000000 }
    ensures { events.new ≡ put_if_room event_numbers events.old k (of_event e) }
{
    let at = EVENT_NUMBERS * k;
    if events.len() < at + EVENT_NUMBERS {
        return;
    }
    events[at] = u32::from(e.kind);
    events[at + 1] = e.start.0;
    events[at + 2] = e.end.0;
    events[at + 3] = e.count.0;
    events[at + 4] = e.width.0;
    events[at + 5] = e.x.0;
}
