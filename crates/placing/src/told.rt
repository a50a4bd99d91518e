// A line of words that are told by their bytes, with one space between any two, and how it ends (rule 2, rule 8, rule 10).
ghost use Rattle.std.specs.Prelude.{◌≤◌, ◌≡◌, true, false, length, IfSome};
ghost use Rattle.meaning.specs.declared.line.LineEnd.TheVariants.{LineBreak};
ghost use Rattle.parser.specs.Ascii.{space_at, ender_at};
ghost use Rattle.placing.specs.Told.{told_at, RowIn, RowEnding, Within};

use meaning::counts::{Chars, Offset};
use meaning::line::LineEnd;
use parser::ascii::{ends_at, space_at};
use parser::glue::glue_len;
use parser::letters::{first_len, skip_plain};
use utf8::long::long_len;

// Where the next line starts, the characters of the words that fit, how far was looked, and how the line ends.
#[derive(Clone, Copy)]
pub struct ToldRow {
    pub next: Offset,
    pub columns: Chars,
    pub reach: Offset,
    pub ended: LineEnd,
}

fn told_at(next: usize, columns: u32, reach: usize, ended: LineEnd) -> ToldRow
    requires { (next ≤ 65536) × (reach ≤ 65536) }
    ensures { result ≡ told_at next columns reach ended }
{
    let start = next as u32;
    let far = reach as u32;
    ToldRow {
        next: Offset(start),
        columns: Chars(columns),
        reach: Offset(far),
        ended,
    }
}

// The line whose words end before one that does not fit, if there are any such words.
fn waiting_row(next: usize, columns: u32, reach: usize) -> Option<ToldRow>
    requires { (next ≤ 65536) × (reach ≤ 65536) }
    ensures { IfSome result (λ r. (next ≡ 0 → ⊥) × (r ≡ told_at next columns reach LineBreak)) }
{
    if next == 0 {
        return None;
    }
    Some(told_at(next, columns, reach, LineEnd::LineBreak))
}

// The line of so many characters whose words end at a position where no space stands.
fn ending_row(text: &[u8], end: usize, columns: u32) -> ToldRow
    requires { (length text.now ≤ 65535) × (end ≤ length text.now) × (ender_at text.now end ≡ true) × (space_at text.now end ≡ false) }
    ensures { RowEnding text.now end columns result }
{
    let far = end + 1;
    if text.len() <= end {
        return told_at(end, columns, far, LineEnd::EndOfText);
    }
    told_at(far, columns, far, LineEnd::NewLine)
}

// How many bytes the character has that stands at a position in a word, where it is told so, and is not of ASCII.
fn inner_len(text: &[u8], at: usize) -> Option<usize>
    ensures { IfSome result (Within text.now at) }
{
    if let Some(letter) = long_len(text, at) {
        return Some(letter);
    }
    glue_len(text, at)
}

// The line at an offset of a text, in a box that holds so many characters, if its bytes tell that it is such a line. Where its words fill the box
// nothing but the first letter of the word behind them is looked at.
pub fn told_row(text: &[u8], at: usize, most: u32) -> Option<ToldRow>
    requires { (length text.now ≤ 65535) × (most ≤ 4096) }
    ensures { IfSome result (RowIn text.now at most) }
{
    let first = first_len(text, at)?;
    let mut to = at + first;
    let mut base = to - 1;
    let mut next: usize = 0;
    let mut columns: u32 = 0;
    loop {
        let end = skip_plain(text, to, text.len());
        if ends_at(text, end) {
            let chars = (end - base) as u32;
            if most < chars {
                return waiting_row(next, columns, end + 1);
            }
            if !space_at(text, end) {
                return Some(ending_row(text, end, chars));
            }
            next = end + 1;
            let letter = first_len(text, next)?;
            to = next + letter;
            if chars == most {
                return Some(told_at(next, chars, to, LineEnd::LineBreak));
            }
            columns = chars;
            base += letter - 1;
            continue;
        }
        let inner = inner_len(text, end)?;
        to = end + inner;
        base += inner - 1;
    }
}
