// Which widths need not be tried: those that lay a text as one does that was (rule 8, rule 10).
ghost use Rattle.std.specs.Prelude.{◌*◌, ◌≤◌, ◌≡◌};
ghost use Rattle.meaning.specs.Checks.{text_limit};
ghost use Rattle.widths.specs.TabFree.{has_tab};
ghost use Rattle.widths.specs.GlyphPlaces.{asked_glyphs};
ghost use Rattle.moves.specs.Fine.{FineSettings};
ghost use Rattle.rows.specs.RowsFrom.{TextReady};
ghost use Rattle.columns.specs.Skipping.{tab_step, tab_skips, skips_of, next_width, SmallSkips};

use crate::gauge::Gauge;
use crate::parts::widest_part;
use crate::width::WIDEST_BOX;
use meaning::settings::Settings;

// From one width to the next is a step, and from one that is enough on no wider one lays the text otherwise.
#[derive(Clone, Copy)]
pub struct Skips {
    pub step: u32,
    pub enough: u32,
}

// Is a tab among the characters: it is a byte by itself.
fn has_tab(text: &[u8]) -> bool
    ensures { result ≡ has_tab text.now }
{
    text.contains(&9)
}

// How much room a box must have to be wide enough for lines of so much: twice as much where they are centred.
fn asked_room(s: Settings, widest: u32) -> u32
    requires { widest ≤ text_limit * 4096 }
    ensures { result ≡ asked_glyphs s.alignment widest }
{
    if s.alignment == 1 {
        return widest + widest;
    }
    widest
}

// With tabs a glyph is a step if a tab is whole glyphs wide, and else a pixel.
fn tab_step(s: Settings) -> u32
    requires { 1 ≤ s.glyph.0 }
    ensures { result ≡ tab_step s }
{
    let glyph = s.glyph.0;
    if s.tab.0 % glyph == 0 {
        return glyph;
    }
    1
}

// Then the widest part is enough, and right aligned a tab more: behind that lines are the same again.
fn tab_skips(s: Settings, widest: u32) -> Skips
    requires { FineSettings s × (widest ≤ text_limit * 4096) }
    ensures { result ≡ tab_skips s widest }
{
    let step = tab_step(s);
    if s.alignment == 0 {
        return Skips {
            step,
            enough: widest,
        };
    }
    if s.alignment == 2 {
        let enough = widest + s.tab.0;
        return Skips { step, enough };
    }
    Skips {
        step: 1,
        enough: WIDEST_BOX,
    }
}

// Without tabs a glyph is a step, and the room that the widest part asks for is enough. Where lines are justified each width is tried.
pub fn skips_of(s: Settings, text: &[u8]) -> Skips
    requires { TextReady s text.now }
    ensures { result ≡ skips_of s text.now }
{
    if 2 < s.alignment {
        return Skips {
            step: 1,
            enough: WIDEST_BOX,
        };
    }
    let step = s.glyph.0;
    let gauge = Gauge {
        glyph: step,
        tab: s.tab.0,
        width: s.width.0,
    };
    let widest = widest_part(gauge, text);
    if has_tab(text) {
        return tab_skips(s, widest);
    }
    let enough = asked_room(s, widest);
    Skips { step, enough }
}

// The width to try after one in which the text did not fit: past them all if that was enough. Below a step each is tried.
pub fn next_width(skips: Skips, w: u32) -> u32
    requires { SmallSkips skips × (w ≤ 4096) }
    ensures { result ≡ next_width skips w }
{
    if skips.enough <= w {
        return WIDEST_BOX + 1;
    }
    if w < skips.step {
        return w + 1;
    }
    w + skips.step
}
