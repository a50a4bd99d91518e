// The fields of a file, one after the other: the first that is not as it should be decides (refusal 9, refusal 11).
ghost use Rattle.std.specs.Prelude.{◌≤◌, ◌≡◌, length, drop};
ghost use Rattle.meaning.specs.LayoutFile.{lines_at};
ghost use Rattle.meaning.specs.ReadFile.{check_line_fields, check_fields};
ghost use Rattle.file_fields.specs.Fields.{end_checked};

use crate::fields::is_field;
use meaning::fields::{
    END_TAG, HEADER_BYTES, LENGTH_AT, LENGTH_TAG, LINE_BYTES, LINE_SIZE, LINE_TAG, LINES_AT,
    NUMBER_BYTES, OLD_LINE_SIZE, SETTINGS_SIZE, SETTINGS_TAG,
};
use meaning::refusals::Refusal;

// The end, and nothing behind it.
fn check_end(file: &[u8], at: usize) -> Result<(), Refusal>
    requires { at ≤ length file.now }
    ensures { result ≡ end_checked at (drop at file.now) }
{
    if !is_field(file, at, END_TAG, 0) {
        return Err(Refusal::BadField(at as u64));
    }
    let behind = at + HEADER_BYTES;
    if behind < file.len() {
        return Err(Refusal::BadField(behind as u64));
    }
    Ok(())
}

// Lines, and the end. How many lines there are is told by their fields alone, and where they end is used behind the loop: it is no `for`.
fn check_lines(file: &[u8]) -> Result<(), Refusal>
    requires { lines_at ≤ length file.now }
    ensures { result ≡ check_line_fields (length file.now) lines_at (drop lines_at file.now) }
{
    let mut at: usize = LINES_AT;
    while is_field(file, at, LINE_TAG, LINE_SIZE) {
        at += LINE_BYTES;
    }
    if is_field(file, at, LINE_TAG, OLD_LINE_SIZE) {
        return Err(Refusal::OldEntry(at as u64));
    }
    check_end(file, at)
}

// All fields.
pub fn check_fields(file: &[u8]) -> Result<(), Refusal>
    ensures { result ≡ check_fields file.now }
{
    if !is_field(file, 0, SETTINGS_TAG, SETTINGS_SIZE) {
        return Err(Refusal::BadField(0));
    }
    if !is_field(file, LENGTH_AT, LENGTH_TAG, NUMBER_BYTES) {
        return Err(Refusal::BadField(LENGTH_AT as u64));
    }
    check_lines(file)
}
