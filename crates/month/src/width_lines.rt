// The widths: one decimal of 1 to 4 digits for each line of their file (refusal 13).
ghost use Rattle.std.specs.Prelude.{◌≡◌, length};
ghost use Rattle.month.specs.WidthFile.{width_of, widths_in, Held};

use clues::feeds::find_feed;
use columns::width::WIDEST_BOX;
use console::digits::decimal_in;
use console::input::ReadFailed;
use std::io;

// The most widths that are listed.
pub const MOST_WIDTHS: usize = 64;

// The most digits of a width.
const DIGITS: usize = 4;

// Why the file gives no widths, an error with two causes that are said apart: its first bad line, counted from 0; or it cannot be read.
#[derive(Clone, Copy)]
pub enum WidthsError {
    Bad(usize),
    Unread(io::Error),
}

impl From<ReadFailed> for WidthsError {
    fn from(failed: ReadFailed) -> WidthsError {
        WidthsError::Unread(failed.error)
    }
}

pub fn parse_width(line: &[u8]) -> Option<u32>
    ensures { result ≡ width_of line.now }
{
    if DIGITS < line.len() {
        return None;
    }
    decimal_in(line, WIDEST_BOX)
}

// All widths of a file, at the array's front, and how many they are.
pub fn parse_widths(file: &[u8], widths: &mut [u32]) -> Result<usize, WidthsError>
    ensures value { result ≡ widths_in (length widths.old) file.now }
    ensures held { Held file.now result widths.new }
{
    let mut k: usize = 0;
    let mut at: usize = 0;
    // no iterator: `split` would give one line more behind the last line feed, and `split_inclusive` would leave each line its own
    while at < file.len() {
        if widths.len() <= k {
            return Err(WidthsError::Bad(k));
        }
        let stop = find_feed(file, at, file.len());
        let w = parse_width(&file[at..stop]).ok_or(WidthsError::Bad(k))?;
        widths[k] = w;
        k += 1;
        at = stop + 1;
    }
    Ok(k)
}
