// Rule 11: the height of a text and the y of a line, from the table.
ghost use Rattle.std.specs.Prelude.{◌<◌, ◌≡◌, Ok};
ghost use Rattle.meaning.specs.Table.{entries_in};
ghost use Rattle.meaning.specs.Height.{height_of, y_of};
ghost use Rattle.meaning.specs.Calls.{check_height, height_answer, y_answer};
ghost use Rattle.heights.specs.Heights.{first_y};

use crate::spacing::{added_before, not_counted};
use crate::vertical::{offset_of, shown_at};
use checks::settings::check_settings;
use look::well_formed::{check_table, text_length};
use meaning::answers::LineY;
use meaning::refusals::Refusal;
use meaning::settings::Settings;

// Refusal 1, refusal 2 and refusal 5.
pub fn check_height(s: Settings, table: &[u32], lines: usize) -> Result<(), Refusal>
    ensures { result ≡ check_height s table.now lines }
{
    check_settings(s)?;
    check_table(table, lines)
}

// C lends a buffer and how many lines of it count, and what was checked, as what is computed, speaks of both: cut to its lines, a slice
// would have its lines counted once more in every clause, and each caller would cut.
fn height_of(s: Settings, table: &[u32], lines: usize) -> u32
    requires { check_height s table.now lines ≡ Ok tt }
    ensures { result ≡ height_of s (entries_in lines table.now) }
{
    let added = added_before(s, table, lines);
    let bytes = text_length(table, lines);
    let left_out = not_counted(s, table, lines, bytes);
    s.base.0 + (added - left_out)
}

// The height of a text, from its table.
pub fn text_height(s: Settings, table: &[u32], lines: usize) -> Result<u64, Refusal>
    ensures { result ≡ height_answer s table.now lines }
{
    check_height(s, table, lines)?;
    Ok(height_of(s, table, lines) as u64)
}

// The y of line 0: the box top and the vertical offset, for which no height is needed where the text stands at the top.
pub fn first_y(s: Settings, table: &[u32], lines: usize) -> i32
    requires { check_height s table.now lines ≡ Ok tt }
    ensures { result ≡ first_y s (entries_in lines table.now) }
{
    if s.vertical == 0 {
        return s.top;
    }
    let high = height_of(s, table, lines);
    let offset = offset_of(s, high);
    s.top + offset
}

fn y_of(s: Settings, table: &[u32], lines: usize, line: usize) -> i32
    requires { (check_height s table.now lines ≡ Ok tt) × (line < lines) }
    ensures { result ≡ y_of s line (entries_in lines table.now) }
{
    let first = first_y(s, table, lines);
    let added = added_before(s, table, line);
    first + added as i32
}

// A line's y, and whether it shows.
pub fn line_y(
    s: Settings,
    table: &[u32],
    lines: usize,
    line: usize,
) -> Result<Option<LineY>, Refusal>
    ensures { result ≡ y_answer s table.now lines line }
{
    check_height(s, table, lines)?;
    if lines <= line {
        return Ok(None);
    }
    Ok(Some(shown_at(s, y_of(s, table, lines, line))))
}
