// The input, line by line, through one buffer. std's `read_until` would take a line of any length, and the heap for it.
ghost use Rattle.std.specs.Prelude.{◌≤◌, ◌≡◌, length, take, drop};
ghost use Rattle.replay.specs.Lines.{line_end, Within};

use crate::malformed::Malformed;
use console::front::to_front;
use console::input::read_more;
use std::io;

// What was read and not yet taken: the buffer's bytes from `at` up to `end`.
#[derive(Clone, Copy)]
pub struct Held {
    pub at: usize,
    pub end: usize,
}

// A line of the buffer, which starts at `start` and has its line feed at `stop`. What was read ends at `end`.
#[derive(Clone, Copy)]
pub struct Part {
    pub start: usize,
    pub stop: usize,
    pub end: usize,
}

// Why a recording was not replayed to its end: an error with two causes, each of which is said in its own words.
#[derive(Clone, Copy)]
pub enum LineError {
    // the input ends within a line, a line is longer than the buffer, or it is no case
    Broken,
    // the input cannot be read
    Failed,
}

impl From<Malformed> for LineError {
    fn from(_: Malformed) -> LineError {
        LineError::Broken
    }
}

impl From<io::Error> for LineError {
    fn from(_: io::Error) -> LineError {
        LineError::Failed
    }
}

// The place of the first line feed from a place up to another.
fn find(s: &[u8], from: usize, end: usize) -> Option<usize>
    requires { end ≤ length s.now }
    ensures { result ≡ line_end from (drop from (take end s.now)) }
{
    for i in from..end {
        if s[i] == b'\n' {
            return Some(i);
        }
    }
    None
}

// The input has ended, with so many bytes after its last line feed.
fn ended(bytes: usize) -> Result<Option<Part>, LineError>
    ensures { Within 0 result }
{
    if bytes == 0 {
        return Ok(None);
    }
    Err(LineError::Broken)
}

// Reads on until the line at the buffer's front, of which so many bytes are there, has its line feed.
fn read_line(
    input: &mut impl io::Read,
    buffer: &mut [u8],
    have: usize,
) -> Result<Option<Part>, LineError>
    requires { have ≤ length buffer.old }
    ensures { Within (length buffer.new) result }
{
    let mut end = have;
    // no `for`: a read may give fewer bytes than there is room for, so nothing counts the turns before
    while end < buffer.len() {
        let Some(read) = read_more(input, buffer, end)? else {
            return ended(end);
        };
        if let Some(stop) = find(buffer, end, read) {
            return Ok(Some(Part {
                start: 0,
                stop,
                end: read,
            }));
        }
        end = read;
    }
    Err(LineError::Broken)
}

// The next line of the input, if it has not ended.
pub fn next_line(
    input: &mut impl io::Read,
    buffer: &mut [u8],
    held: Held,
) -> Result<Option<Part>, LineError>
    requires at_le_end { held.at ≤ held.end }
    requires end_in_bounds { held.end ≤ length buffer.old }
    ensures { Within (length buffer.new) result }
{
    if let Some(stop) = find(buffer, held.at, held.end) {
        return Ok(Some(Part {
            start: held.at,
            stop,
            end: held.end,
        }));
    }
    let have = to_front(buffer, held.at, held.end);
    read_line(input, buffer, have)
}
