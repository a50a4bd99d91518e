// An input, read up to a buffer's end or to its own.
ghost use Rattle.std.specs.Prelude.{◌+◌, ◌^◌, ◌<◌, ◌≤◌, ◌≡◌, length, take};
ghost use Rattle.console.specs.Counts.{IsPrefixLen, Came, bytes_read};

use crate::buffers::large_buffer;
use std::io;

// A read failed, after so many bytes were read.
#[derive(Clone, Copy)]
pub struct ReadFailed {
    pub bytes: usize,
    pub error: io::Error,
}

// Reads once, into the buffer from a place on, and answers where the bytes end that came, if any did. What stands before it stays.
pub fn read_more(
    input: &mut impl io::Read,
    buffer: &mut [u8],
    end: usize,
) -> io::Result<Option<usize>>
    requires { end < length buffer.old }
    ensures came { Came end (length buffer.new) result }
    ensures buffer_unchanged { take end buffer.new ≡ take end buffer.old }
{
    let more = input.read(&mut buffer[end..])?;
    if more == 0 {
        return Ok(None);
    }
    Ok(Some(end + more))
}

// Reads until the buffer is full or the input ends, and answers how many bytes it read; a read that fails answers it too. std's `read_exact`
// refuses an input that ends before.
pub fn fill(input: &mut impl io::Read, buffer: &mut [u8]) -> Result<usize, ReadFailed>
    ensures bytes_in_bounds { bytes_read result ≤ length buffer.old }
    ensures prefix_len { IsPrefixLen (bytes_read result) buffer.new }
{
    let mut bytes: usize = 0;
    // no `for`: a read may give fewer bytes than there is room for, so nothing counts the turns before
    while bytes < buffer.len() {
        let more = read_more(input, buffer, bytes);
        let Some(end) = more.map_err(|error| ReadFailed { bytes, error })? else {
            break;
        };
        bytes = end;
    }
    Ok(bytes)
}

// The bytes of a large buffer.
const LARGE: usize = 65536;

// Reads as many bytes as such a buffer has, or as are left, and forgets them.
fn skip(input: &mut impl io::Read) -> Result<usize, ReadFailed>
    ensures { bytes_read result ≤ 2 ^ 16 }
{
    fill(input, &mut large_buffer())
}

// 2 ^ 62
const MANY: usize = 0x4000000000000000;

// Reads to the end and counts the bytes. Nothing says that an input ends, and a proved loop has to, so this one stops
// when it has counted 2 ^ 62 bytes or more, which would take centuries to read, and answers that count. std's `io::copy` bounds no count.
pub fn count_rest(input: &mut impl io::Read) -> Result<usize, ReadFailed>
    ensures { bytes_read result ≤ 2 ^ 62 + 2 ^ 16 }
{
    let mut bytes: usize = 0;
    while bytes < MANY {
        let more = skip(input).map_err(|failed| ReadFailed {
            bytes: bytes + failed.bytes,
            ..failed
        })?;
        bytes += more;
        if more < LARGE {
            break;
        }
    }
    Ok(bytes)
}
