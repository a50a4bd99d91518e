// A layout written to a file, field after field (refusal 1, refusal 2, refusal 5, refusal 8).
// A table is lent with a count of lines beside it, as C lends it: it may be past the table, which refusal 5 answers; heights says at
// `height_of` why the pair stays behind that check.
ghost use Rattle.std.specs.Prelude.{◌+◌, ◌*◌, ◌≤◌, ◌≡◌, length, drop};
ghost use Rattle.meaning.specs.Table.{entry_numbers, of_all, entry_in, entries_in};
ghost use Rattle.meaning.specs.LayoutFile.{header_bytes, number_bytes, line_bytes, length_at, lines_at, settings_field, length_field, line_field, line_fields, layout_file, file_bytes};
ghost use Rattle.meaning.specs.Calls.{check_writing, writing_answer, writing_file};
ghost use Rattle.table.specs.Numbers.{put_numbers};

use crate::settings::numbers_of;
use checks::room::check_room;
use checks::settings::check_settings;
use file_fields::fields::write_header;
use file_fields::numbers::{write_number, write_numbers};
use look::well_formed::{check_table, text_length};
use meaning::fields::{
    END_TAG, FRAME_BYTES, HEADER_BYTES, LENGTH_AT, LENGTH_TAG, LINE_BYTES, LINE_SIZE, LINE_TAG,
    LINES_AT, NUMBER_BYTES, SETTINGS_SIZE, SETTINGS_TAG,
};
use meaning::refusals::Refusal;
use meaning::settings::Settings;
use meaning::sizes::{ENTRY_NUMBERS, SETTINGS_NUMBERS};

fn write_settings(file: &mut [u8], s: Settings)
    requires { length_at ≤ length file.old }
    ensures { file.new ≡ put_numbers file.old 0 (settings_field s) }
{
    let numbers = numbers_of(s);
    write_header(file, 0, SETTINGS_TAG, SETTINGS_SIZE);
    write_numbers(&numbers, 0, SETTINGS_NUMBERS, file, HEADER_BYTES);
}

// The length of the text.
fn write_length(file: &mut [u8], bytes: u32)
    requires { lines_at ≤ length file.old }
    ensures { file.new ≡ put_numbers file.old length_at (length_field bytes) }
{
    write_header(file, LENGTH_AT, LENGTH_TAG, NUMBER_BYTES);
    write_number(file, LENGTH_AT + HEADER_BYTES, bytes);
}

// Line k of a table, to an offset.
fn write_line(file: &mut [u8], at: usize, table: &[u32], k: usize)
    requires { (at + line_bytes ≤ length file.old) × (entry_numbers * k + entry_numbers ≤ length table.now) }
    ensures { file.new ≡ put_numbers file.old at (line_field (entry_in (drop (entry_numbers * k) table.now))) }
{
    write_header(file, at, LINE_TAG, LINE_SIZE);
    write_numbers(
        table,
        ENTRY_NUMBERS * k,
        ENTRY_NUMBERS,
        file,
        at + HEADER_BYTES,
    );
}

// The lines of a table.
fn write_lines(file: &mut [u8], table: &[u32], lines: usize)
    requires { (lines_at + line_bytes * lines ≤ length file.old) × (entry_numbers * lines ≤ length table.now) }
    ensures { file.new ≡ put_numbers file.old lines_at (of_all line_field (entries_in lines table.now)) }
{
    for k in 0..lines {
        write_line(file, LINES_AT + LINE_BYTES * k, table, k);
    }
}

// The lines, and the end behind them.
fn write_rows(file: &mut [u8], table: &[u32], lines: usize)
    requires { (file_bytes lines ≤ length file.old) × (entry_numbers * lines ≤ length table.now) }
    ensures { file.new ≡ put_numbers file.old lines_at (line_fields (entries_in lines table.now)) }
{
    write_lines(file, table, lines);
    write_header(file, LINES_AT + LINE_BYTES * lines, END_TAG, 0);
}

// All fields, in their order.
fn write_fields(s: Settings, table: &[u32], lines: usize, file: &mut [u8])
    requires { (file_bytes lines ≤ length file.old) × (entry_numbers * lines ≤ length table.now) }
    ensures { file.new ≡ put_numbers file.old 0 (layout_file s (entries_in lines table.now)) }
{
    let bytes = text_length(table, lines);
    write_settings(file, s);
    write_length(file, bytes.0);
    write_rows(file, table, lines);
}

// Refusal 1, refusal 2, refusal 5 and refusal 8, where there is room for so many bytes.
fn check_writing(s: Settings, table: &[u32], lines: usize, file: &[u8]) -> Result<(), Refusal>
    ensures { result ≡ check_writing s table.now lines file.now }
{
    check_settings(s)?;
    check_table(table, lines)?;
    check_room(file.len(), FRAME_BYTES + LINE_BYTES * lines)
}

// How many bytes were written; or refusal 1, 2, 5 or 8, of which none writes anything.
pub fn write_file(s: Settings, table: &[u32], lines: usize, file: &mut [u8]) -> Result<u64, Refusal>
    ensures value { result ≡ writing_answer s table.now lines file.old }
    ensures file_after { file.new ≡ writing_file s table.now lines file.old }
{
    check_writing(s, table, lines, file)?;
    write_fields(s, table, lines, file);
    Ok((FRAME_BYTES + LINE_BYTES * lines) as u64)
}
