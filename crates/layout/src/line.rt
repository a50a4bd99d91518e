// The events of one line, drawn from its entry (rule 10, rule 13).
ghost use Rattle.std.specs.Prelude.{◌+◌, ◌≡◌, length};
ghost use Rattle.table.specs.Numbers.{put_events};
ghost use Rattle.layout.specs.EventsFrom.{line_events, DrawReady};

use drawing::pass::draw_pass;
use meaning::cursor::Spaces;
use meaning::line::Entry;
use meaning::settings::Settings;
use moves::place::start_place;
use stands::stand::Stand;

// The events of the line at a stand, from its entry: events number k and on. How many there are with those before.
pub fn draw_line(
    text: &[u8],
    s: Settings,
    stand: Stand,
    e: Entry,
    events: &mut [u32],
    k: usize,
) -> usize
    requires { DrawReady s text.now stand e k }
    ensures events_after { events.new ≡ put_events events.old k (line_events s text.now stand e) }
    ensures value { result ≡ k + length (line_events s text.now stand e) }
{
    let spaces = Spaces {
        width: e.space,
        extra: e.extra,
    };
    let start = start_place(s, e.left, spaces);
    let at = stand.at.0 as usize;
    draw_pass(
        text,
        s,
        start,
        at,
        stand.rest,
        stand.known,
        e.left.0,
        events,
        k,
    )
}
