// The input, block by block, and how far it is read.
ghost use Rattle.clues.specs.Counting.{Counts};

use crate::block::{Step, count_block, count_last};
use clues::stream::MOST_CLUES;
use console::buffers::large_buffer;
use console::input::read_more;
use meaning::figures::Figures;
use meaning::settings::Settings;
use std::io;

// All clues are counted; as many as a month may have; or the input could not be read. Three outcomes, and the last is said by the program: an
// `Err` is what writing answers.
#[derive(Clone, Copy)]
pub enum Count {
    Whole,
    Stopped,
    Failed,
}

// How often progress is shown, in clues.
const OFTEN: u64 = 10000;

// On a terminal, how many clues are counted, where that has passed a multiple of so many.
fn show(rt: &impl Eprint, terminal: bool, before: u64, after: u64) -> io::Result<()> {
    if terminal && before / OFTEN < after / OFTEN {
        eprint!(rt; "\r{after} clues")?;
    }
    Ok(())
}

// The line that progress was shown on is ended.
fn end_show(rt: &impl Eprint, terminal: bool, clues: u64) -> io::Result<()> {
    if terminal && OFTEN <= clues {
        rt.eprint("\n")?;
    }
    Ok(())
}

// 2 ^ 62. Nothing says that an input ends, and a proved loop has to: this one stops after so many reads.
const MANY: u64 = 0x4000000000000000;

// No contract of a read says what the bytes are that came, so none of this one can say what they sum to. Its turns are those of `Ran` in
// specs/WholeStream.antt: a read puts bytes behind what is held, and count_block counts them as it ensures. What is said there of all
// turns holds here: `whole-counted` where count_last is reached, and `stopped_counted` at as many clues as a month may have.
pub fn count_stream(
    rt: &impl Eprint,
    input: &mut impl io::Read,
    terminal: bool,
    s: Settings,
    widths: &[u32],
    sums: &mut [Figures],
) -> io::Result<Count>
    requires { Counts s widths.now sums.old 0 }
{
    let mut buffer = large_buffer();
    let mut step = Step {
        clues: 0,
        held: Some(0),
    };
    for _ in 0..MANY {
        match read_more(input, &mut buffer, step.held.unwrap_or(0)) {
            Ok(Some(end)) => {
                let next = count_block(&mut buffer, end, step, s, widths, sums);
                show(rt, terminal, step.clues, next.clues)?;
                if MOST_CLUES <= next.clues {
                    end_show(rt, terminal, step.clues)?;
                    return Ok(Count::Stopped);
                }
                step = next;
            }
            Ok(None) => {
                count_last(&buffer, step, s, widths, sums);
                end_show(rt, terminal, step.clues)?;
                return Ok(Count::Whole);
            }
            Err(_) => {
                return Ok(Count::Failed);
            }
        }
    }
    Ok(Count::Failed)
}
