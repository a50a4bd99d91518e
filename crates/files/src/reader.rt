// A layout read from a file. Nothing is written before all tests are made (refusal 1, refusal 2, refusal 3, refusal 5, refusal 8,
// refusal 9, refusal 11, refusal 12).
// The table that a file is read to is lent for more lines than there may be: how many are needed stands beside it.
ghost use Rattle.std.specs.Prelude.{◌≡◌, [], ◌∷◌, length, Ok};
ghost use Rattle.meaning.specs.Checks.{first_of, check_room};
ghost use Rattle.meaning.specs.Table.{entry_numbers, capacity_of, written};
ghost use Rattle.meaning.specs.LayoutFile.{settings_numbers, of_settings};
ghost use Rattle.meaning.specs.ReadFile.{check_fields, file_settings, file_lines, unretired};
ghost use Rattle.meaning.specs.Calls.{check_reading, handed_out, reading_answer, reading_settings, reading_table};
ghost use Rattle.files.specs.ReadingCalls.{HandsOut, check_contents};

use crate::lines::{check_lines_read, file_length, write_table};
use crate::settings::{check_known, file_settings, hand_out};
use checks::room::check_room;
use file_fields::order::check_fields;
use meaning::answers::FileRead;
use meaning::fields::{FRAME_BYTES, LINE_BYTES};
use meaning::refusals::Refusal;
use meaning::sizes::{ENTRY_NUMBERS, SETTINGS_NUMBERS};

// How many lines a file has.
fn lines_of(file: &[u8]) -> usize
    requires { check_fields file.now ≡ Ok tt }
    ensures { result ≡ file_lines file.now }
{
    (file.len() - FRAME_BYTES) / LINE_BYTES
}

// Refusal 8 of the settings, then of the table.
fn check_rooms(settings: &[u32], table: &[u32], lines: usize) -> Result<(), Refusal>
    ensures { result ≡ first_of (check_room (length settings.now) settings_numbers ∷ check_room (capacity_of entry_numbers table.now) lines ∷ []) }
{
    check_room(settings.len(), SETTINGS_NUMBERS)?;
    check_room(table.len() / ENTRY_NUMBERS, lines)
}

// The tests of what the fields hold.
fn check_contents(file: &[u8], settings: &[u32], table: &[u32]) -> Result<(), Refusal>
    requires { check_fields file.now ≡ Ok tt }
    ensures { result ≡ check_contents file.now settings.now table.now }
{
    let lines = lines_of(file);
    check_known(settings.len(), file_settings(file))?;
    check_lines_read(file, lines)?;
    check_rooms(settings, table, lines)
}

// All tests, in their order.
fn check_reading(file: &[u8], settings: &[u32], table: &[u32]) -> Result<(), Refusal>
    ensures { result ≡ check_reading file.now settings.now table.now }
{
    check_fields(file)?;
    check_contents(file, settings, table)
}

// The settings are handed out where nothing is refused, and with refusal 12.
fn hand_out_by(checked: Result<(), Refusal>, file: &[u8], settings: &mut [u32])
    requires { HandsOut checked file.now settings.old }
    ensures { settings.new ≡ handed_out checked (written settings.old (of_settings (unretired (file_settings file.now)))) settings.old }
{
    match checked {
        Ok(()) => hand_out(file, settings),
        Err(r) => {
            if matches!(r, Refusal::RetiredSetting) {
                hand_out(file, settings);
            }
        }
    }
}

// How many lines were read, and the length of their text; or a refusal, of which 12 alone writes anything: the settings.
pub fn read_file(file: &[u8], settings: &mut [u32], table: &mut [u32]) -> Result<FileRead, Refusal>
    ensures value { result ≡ reading_answer file.now settings.old table.old }
    ensures settings_after { settings.new ≡ reading_settings file.now settings.old table.old }
    ensures table_after { table.new ≡ reading_table file.now settings.old table.old }
{
    let checked = check_reading(file, settings, table);
    hand_out_by(checked, file, settings);
    checked?;
    let lines = lines_of(file);
    write_table(file, lines, table);
    Ok(FileRead {
        lines: lines as u64,
        bytes: file_length(file) as u64,
    })
}
