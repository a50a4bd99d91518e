// The events of lines are drawn as the lines are written (rule 13).
ghost use Rattle.layout.specs.EventsFrom.{events_after};
ghost use Rattle.layout.specs.DrawSeen.{seen-alike, seen-few};

use crate::line::draw_line;
use drawing::cuts::draw_part;
use drawing::plain::draw_plain;
use meaning::line::Entry;
use meaning::settings::Settings;
use rows::drawer::Drawer;
use rows::plain::Passed;
use rows::ragged::Ragged;
use stands::stand::Stand;

// All events are drawn.
pub struct Seen;

impl Drawer for Seen {
    ghost to_draw = { events_after };

    ghost alike = { seen-alike };

    ghost few = { seen-few };

    fn plain(
        text: &[u8],
        r: Ragged,
        here: Passed,
        end: u32,
        entry: Entry,
        events: &mut [u32],
    ) -> usize {
        draw_plain(
            text,
            r.settings,
            here.at.0 as usize,
            end as usize,
            entry.left.0,
            events,
            here.events,
        )
    }

    fn part(
        text: &[u8],
        r: Ragged,
        here: Passed,
        next: usize,
        gluing: u32,
        entry: Entry,
        events: &mut [u32],
    ) -> usize {
        draw_part(
            text,
            r.settings,
            here.at.0 as usize,
            next,
            r.most,
            gluing,
            entry.left.0,
            events,
            here.events,
        )
    }

    fn line(
        text: &[u8],
        s: Settings,
        stand: Stand,
        entry: Entry,
        events: &mut [u32],
        k: usize,
    ) -> usize {
        draw_line(text, s, stand, entry, events, k)
    }
}
