// Lines filled with a text's bytes, from the left and with plain spaces: no layout that drops nothing has so few (rule 4, rule 8, rule 10).
ghost use Rattle.std.specs.Prelude.{◌*◌, ◌≤◌, ◌≡◌, length};
ghost use Rattle.meaning.specs.Checks.{text_limit};
ghost use Rattle.widths.specs.LineParts.{breaks};
ghost use Rattle.widths.specs.TabStops.{next_stop};
ghost use Rattle.columns.specs.Filling.{grown, fill_word, fill_to, fill_other, fill_blank, fill_by};
ghost use Rattle.columns.specs.LeadBytes.{leads};
ghost use Rattle.columns.specs.FillTurns.{SmallFill, lines_filled};

use crate::gauge::Gauge;

// So many lines are full, and the next one is filled up to a place; whether it has a character of a word; and how much of the word at hand is
// in it, if that word moves to the next line where it does not fit. `begun` is no Option: `at` counts with a word and without.
#[derive(Clone, Copy)]
pub struct Fill {
    pub lines: usize,
    pub at: u32,
    pub begun: bool,
    pub part: Option<u32>,
}

// A byte that begins a character of a word, whatever follows it.
fn begins_word(b: u8) -> bool
    ensures { result ≡ leads b }
{
    if b < 0x21 {
        return false;
    }
    if b < 0x80 {
        return true;
    }
    if b < 0xC3 {
        return false;
    }
    if b < 0xE1 {
        return true;
    }
    0xE4 <= b
}

// LF or CR.
pub fn breaks_line(b: u8) -> bool
    ensures { result ≡ breaks b }
{
    (b == b'\n') | (b == b'\r')
}

// What moves along of a word, with one character more.
fn grown_part(gauge: Gauge, f: Fill) -> Option<u32>
    requires { SmallFill gauge.width text_limit f }
    ensures { result ≡ grown gauge.glyph f.part }
{
    let part = f.part?;
    Some(part + gauge.glyph)
}

// A character of a word goes into the line if it fits, else into the next one, with what moves along.
fn fill_word(gauge: Gauge, f: Fill) -> Fill
    requires { SmallFill gauge.width text_limit f }
    ensures { result ≡ fill_word gauge.glyph gauge.width f }
{
    let to = f.at + gauge.glyph;
    if to <= gauge.width {
        return Fill {
            at: to,
            begun: true,
            part: grown_part(gauge, f),
            ..f
        };
    }
    let along = f.part.unwrap_or(0) + gauge.glyph;
    Fill {
        lines: f.lines + 1,
        at: along.min(gauge.width),
        begun: true,
        part: None,
    }
}

// The first multiple of the tab width above a place, which stays where it is if that width is 0.
pub fn next_stop(gauge: Gauge, at: u32) -> u32
    requires { at ≤ text_limit * 4096 }
    ensures { result ≡ next_stop gauge.tab at }
{
    let tab = gauge.tab;
    if tab == 0 {
        return at;
    }
    (at / tab + 1) * tab
}

// Further on, up to the edge: the next word is apart from what the line has.
fn fill_to(w: u32, f: Fill, to: u32) -> Fill
    ensures { result ≡ fill_to w f to }
{
    Fill {
        at: to.min(w),
        part: f.begun.then_some(0),
        ..f
    }
}

// Any other byte may be of the word or end it: what is there of it does not move.
fn fill_other(f: Fill) -> Fill
    ensures { result ≡ fill_other f }
{
    Fill { part: None, ..f }
}

// A space or a tab behind a word: to the edge where it does not fit.
fn fill_blank(gauge: Gauge, f: Fill, b: u8) -> Fill
    requires { SmallFill gauge.width text_limit f }
    ensures { result ≡ fill_blank gauge.glyph gauge.tab gauge.width f b }
{
    if b == 0x20 {
        let further = f.at + gauge.glyph;
        return fill_to(gauge.width, f, further);
    }
    if b == 9 {
        let stop = next_stop(gauge, f.at);
        return fill_to(gauge.width, f, stop);
    }
    fill_other(f)
}

// One byte more. What stands before the first word of a line is not counted, since it may be skipped.
fn fill_byte(gauge: Gauge, f: Fill, b: u8) -> Fill
    requires { SmallFill gauge.width text_limit f }
    ensures { result ≡ fill_by leads gauge.glyph gauge.tab gauge.width f b }
{
    if begins_word(b) {
        return fill_word(gauge, f);
    }
    if breaks_line(b) {
        return Fill {
            lines: f.lines + 1,
            at: 0,
            begun: false,
            part: None,
        };
    }
    if f.begun {
        return fill_blank(gauge, f, b);
    }
    fill_other(f)
}

// So many lines are full when all bytes are in.
pub fn lines_filled(gauge: Gauge, text: &[u8]) -> usize
    requires { length text.now ≤ text_limit }
    ensures { result ≡ lines_filled gauge.glyph gauge.tab gauge.width text.now }
{
    let mut f = Fill {
        lines: 0,
        at: 0,
        begun: false,
        part: None,
    };
    for b in text {
        f = fill_byte(gauge, f, *b);
    }
    f.lines
}
