// Lays every case of a recording of the Rust crate's answers, which stands on standard input, compares number by number, and
// prints one line: how many cases there are and how many differ.
//
// A recording is text. A line that begins with '#' is a comment; every other line is a case, decimals with a space between any
// two: glyph, width, tab, alignment, leading, a 0 for the retired setting; and four counts, each followed by what it counts: the text's bytes, its
// tokens (kind, start, end, count), its lines (an entry's first eight numbers) and its events (six numbers).
#![tactic(auto)]

mod case;
mod input;
mod judge;
mod malformed;
mod numbers;
mod same;
mod say;
mod shape;
mod tally;

ghost use Rattle.std.specs.Prelude.{◌^◌, ◌<◌};
ghost use Rattle.replay.specs.Tally.{Sound};

use crate::input::{Held, LineError, next_line};
use crate::judge::judge;
use crate::say::{say_replayed, say_stopped};
use crate::tally::{Tally, count, nothing};
use console::buffers::large_buffer;
use std::io;

// 2 ^ 62. Nothing says that an input ends, and a proved loop has to: this one stops at a line that would take centuries to read.
const MANY: u64 = 0x4000000000000000;

// Counts the cases of a recording, up to its end or to a line that is none.
fn replay(input: &mut impl io::Read, t: &mut Tally) -> Result<(), LineError>
    requires { Sound 0 t.old }
    ensures { t.new.cases < 2 ^ 63 }
{
    let mut buffer = large_buffer();
    let mut held = Held { at: 0, end: 0 };
    for lines in 0..MANY {
        let Some(part) = next_line(input, &mut buffer, held)? else {
            return Ok(());
        };
        let verdict = judge(&buffer[part.start..part.stop])?;
        *t = count(*t, verdict);
        held = Held {
            at: part.stop + 1,
            end: part.end,
        };
    }
    Err(LineError::Broken)
}

fn main(rt: HostRuntime) -> io::Result<()> {
    let mut t = nothing();
    match replay(&mut rt.stdin(), &mut t) {
        Ok(()) => say_replayed(&rt, t),
        Err(error) => say_stopped(&rt, error, t),
    }
}
