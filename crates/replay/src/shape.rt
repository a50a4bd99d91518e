// Where the parts of a case stand among its numbers.
ghost use Rattle.std.specs.Prelude.{◌≤◌};
ghost use Rattle.replay.specs.Shape.{Past, Shaped};

use crate::malformed::Malformed;
use meaning::sizes::{EVENT_NUMBERS, TOKEN_NUMBERS};

// The places of three counts: of the tokens, the lines and the events. The count of the text's bytes stands at 6, after the
// settings. What is counted follows its count.
#[derive(Clone, Copy)]
pub struct Case {
    pub tokens: usize,
    pub lines: usize,
    pub events: usize,
}

// The most that a case may have.
pub const BYTES: u32 = 128;

pub const TOKENS: u32 = 128;

pub const LINES: u32 = 130;

pub const EVENTS: u32 = 400;

// The settings that a case starts with.
pub const SETTINGS: usize = 6;

// The numbers of a line that are recorded: an entry's first.
pub const RECORDED: usize = 8;

// The place after a count and what it counts, which is so many numbers each.
fn past(numbers: &[u32], at: usize, each: usize, most: u32) -> Result<usize, Malformed>
    requires { each ≤ 8 }
    ensures { Past numbers.now at each most result }
{
    let count = *numbers.get(at).ok_or(Malformed)?;
    if most < count {
        return Err(Malformed);
    }
    let size = each * count as usize;
    if numbers.len() - at <= size {
        return Err(Malformed);
    }
    Ok(at + 1 + size)
}

pub fn shape_of(numbers: &[u32]) -> Result<Case, Malformed>
    ensures { Shaped numbers.now result }
{
    let tokens = past(numbers, SETTINGS, 1, BYTES)?;
    let lines = past(numbers, tokens, TOKEN_NUMBERS, TOKENS)?;
    let events = past(numbers, lines, RECORDED, LINES)?;
    let end = past(numbers, events, EVENT_NUMBERS, EVENTS)?;
    if end != numbers.len() {
        return Err(Malformed);
    }
    Ok(Case {
        tokens,
        lines,
        events,
    })
}
