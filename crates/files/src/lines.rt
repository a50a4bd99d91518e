// The lines of a file: checked where they stand, and written to a table (refusal 3, refusal 5).
// How many lines a file has stands in its head: it is read once, and handed on.
ghost use Rattle.std.specs.Prelude.{◌+◌, ◌*◌, ◌≤◌, ◌≡◌, [], ◌∷◌, length, drop};
ghost use Rattle.meaning.specs.Checks.{first_of, check_length};
ghost use Rattle.meaning.specs.Table.{entry_numbers, of_entry, of_all, entry_in, written};
ghost use Rattle.meaning.specs.WellFormed.{nothing, last_reach, check_lines};
ghost use Rattle.meaning.specs.LayoutFile.{line_size, line_bytes, lines_at};
ghost use Rattle.meaning.specs.ReadFile.{numbers_in, file_text_length, lines_in, check_lines_read};

use checks::text::check_length;
use file_fields::numbers::{read_number, read_numbers};
use look::one_line::{LineBefore, entry_good};
use meaning::counts::Offset;
use meaning::fields::{HEADER_BYTES, LENGTH_AT, LINE_BYTES, LINES_AT, NUMBER_BYTES};
use meaning::line::Entry;
use meaning::refusals::Refusal;
use meaning::sizes::{ENTRY_NUMBERS, REACH, REACH_LIMIT};
use table::entries::read_entry;

// The line whose numbers stand at an offset.
fn entry_at(file: &[u8], at: usize) -> Entry
    requires { at + line_size ≤ length file.now }
    ensures { result ≡ entry_in (numbers_in entry_numbers (drop at file.now)) }
{
    let mut numbers: [u32; ENTRY_NUMBERS] = [0; ENTRY_NUMBERS];
    read_numbers(file, at, ENTRY_NUMBERS, &mut numbers, 0);
    read_entry(&numbers, 0)
}

// The reach of the last line, 0 if there is none.
fn last_reach(file: &[u8], lines: usize) -> u32
    requires { lines_at + line_bytes * lines ≤ length file.now }
    ensures { result ≡ last_reach (lines_in lines (drop lines_at file.now)) }
{
    if lines == 0 {
        return 0;
    }
    let last = LINES_AT + LINE_BYTES * (lines - 1);
    read_number(file, last + (HEADER_BYTES + NUMBER_BYTES * REACH))
}

// The first bad line of a text of so many bytes.
fn check_each(file: &[u8], lines: usize, bytes: Offset) -> Result<(), Refusal>
    requires { lines_at + line_bytes * lines ≤ length file.now }
    ensures { result ≡ check_lines bytes.0 0 nothing (lines_in lines (drop lines_at file.now)) }
{
    let mut prior = None;
    for k in 0..lines {
        let e = entry_at(file, LINES_AT + LINE_BYTES * k + HEADER_BYTES);
        if !entry_good(bytes, prior, e, k + 1 == lines) {
            return Err(Refusal::BadLine(k as u64));
        }
        prior = Some(LineBefore {
            start: e.start,
            reach: e.reach,
            before: e.before,
        });
    }
    Ok(())
}

// Refusal 5: no line, lines of a text of another length, or the first bad line.
fn check_rows(file: &[u8], lines: usize, bytes: u32) -> Result<(), Refusal>
    requires { lines_at + line_bytes * lines ≤ length file.now }
    ensures { result ≡ check_lines_read bytes (lines_in lines (drop lines_at file.now)) }
{
    let reach = last_reach(file, lines);
    if reach < 1 {
        return Err(Refusal::BadLine(0));
    }
    if REACH_LIMIT < reach {
        return Err(Refusal::BadLine(0));
    }
    if reach - 1 != bytes {
        return Err(Refusal::BadLine(0));
    }
    check_each(file, lines, Offset(bytes))
}

// The length of the text.
pub fn file_length(file: &[u8]) -> u32
    requires { lines_at ≤ length file.now }
    ensures { result ≡ file_text_length file.now }
{
    read_number(file, LENGTH_AT + HEADER_BYTES)
}

// Refusal 3 and refusal 5.
pub fn check_lines_read(file: &[u8], lines: usize) -> Result<(), Refusal>
    requires { lines_at + line_bytes * lines ≤ length file.now }
    ensures { result ≡ first_of (check_length (file_text_length file.now) ∷ check_lines_read (file_text_length file.now) (lines_in lines (drop lines_at file.now)) ∷ []) }
{
    let bytes = file_length(file);
    check_length(bytes as u64)?;
    check_rows(file, lines, bytes)
}

// The lines, to a table that has room for them.
pub fn write_table(file: &[u8], lines: usize, table: &mut [u32])
    requires { (lines_at + line_bytes * lines ≤ length file.now) × (entry_numbers * lines ≤ length table.old) }
    ensures { table.new ≡ written table.old (of_all of_entry (lines_in lines (drop lines_at file.now))) }
{
    for k in 0..lines {
        let at = LINES_AT + LINE_BYTES * k + HEADER_BYTES;
        read_numbers(file, at, ENTRY_NUMBERS, table, ENTRY_NUMBERS * k);
    }
}
