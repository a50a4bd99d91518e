// What is done with the events of lines as they are written: they are drawn, or nothing is (rule 10, rule 13).
ghost use Rattle.std.specs.Prelude.{ℕ, List, [], refl};
ghost use Rattle.meaning.specs.declared.settings.Settings.{Settings};
ghost use Rattle.meaning.specs.declared.line.Event.{Event};
ghost use Rattle.stands.specs.declared.stand.Stand.{Stand};
ghost use Rattle.rows.specs.Drawers.{AlikeHere, FewOfText, ToDraw, LineDrawn, none-drawn, none-few};
ghost use Rattle.rows.specs.DrawnLines.{passed_stand, PlainHere, PartHere};

use crate::plain::Passed;
use crate::ragged::Ragged;
use meaning::line::Entry;
use meaning::settings::Settings;
use stands::stand::Stand;

// Each method puts a line's events behind so many others, and answers how many there are then.
pub trait Drawer {
    // the events that are put of the lines from a stand on: all that they have, or none
    ghost to_draw: { Settings → List ℕ → Stand → List Event };

    // of a line of plain words that ends before an offset
    fn plain(
        text: &[u8],
        r: Ragged,
        here: Passed,
        end: u32,
        entry: Entry,
        events: &mut [u32],
    ) -> usize
        requires { ToDraw (to_draw r.settings text.now) r.settings text.now (passed_stand here) entry here.events × PlainHere r text.now here end entry }
        ensures { LineDrawn (to_draw r.settings text.now) r.settings text.now (passed_stand here) events.old here.events events.new result };

    // of a line that is a part, up to an offset, of a word of which no more characters glue than that
    fn part(
        text: &[u8],
        r: Ragged,
        here: Passed,
        next: usize,
        gluing: u32,
        entry: Entry,
        events: &mut [u32],
    ) -> usize
        requires { ToDraw (to_draw r.settings text.now) r.settings text.now (passed_stand here) entry here.events × PartHere r text.now here next gluing entry }
        ensures { LineDrawn (to_draw r.settings text.now) r.settings text.now (passed_stand here) events.old here.events events.new result };

    // of any line at a stand
    fn line(
        text: &[u8],
        s: Settings,
        stand: Stand,
        entry: Entry,
        events: &mut [u32],
        k: usize,
    ) -> usize
        requires { ToDraw (to_draw s text.now) s text.now stand entry k }
        ensures { LineDrawn (to_draw s text.now) s text.now stand events.old k events.new result };

    // where a line resumes nothing it does not matter what word is known there
    ghost alike: { (s : Settings) → (t : List ℕ) → AlikeHere s t (to_draw s t) };

    // no count of them wraps
    ghost few: { (s : Settings) → (t : List ℕ) → FewOfText s t (to_draw s t) };
}

// Nothing is drawn.
pub struct Unseen;

impl Drawer for Unseen {
    ghost to_draw = { λ s t p. [] };

    ghost alike = { λ s t p ready none. refl };

    ghost few = { none-few };

    fn plain(
        text: &[u8],
        r: Ragged,
        here: Passed,
        end: u32,
        entry: Entry,
        events: &mut [u32],
    ) -> usize {
        here.events
    }

    fn part(
        text: &[u8],
        r: Ragged,
        here: Passed,
        next: usize,
        gluing: u32,
        entry: Entry,
        events: &mut [u32],
    ) -> usize {
        here.events
    }

    fn line(
        text: &[u8],
        s: Settings,
        stand: Stand,
        entry: Entry,
        events: &mut [u32],
        k: usize,
    ) -> usize {
        k
    }
}
