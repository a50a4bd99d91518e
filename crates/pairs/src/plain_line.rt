// A line of plain words with one space between any two, found by where the box ends (rule 8, rule 10).
ghost use Rattle.std.specs.Prelude.{◌+◌, ◌≤◌, ◌<◌, ◌≡◌, length, IfSome};
ghost use Rattle.pairs.specs.Stretches.{Plains, LastSpace, Waits, PlainLine};

use crate::stretch::smooth_to;
use meaning::counts::Offset;
use parser::ascii::{ends_at, plain_at};
use parser::letters::skip_plain;

// Where the words end that fit, and how far was looked.
#[derive(Clone, Copy)]
pub struct FoundLine {
    pub end: Offset,
    pub reach: Offset,
}

fn plain_found(end: usize, reach: usize) -> FoundLine
    requires { (end ≤ 65536) × (reach ≤ 65536) }
    ensures { (result.end.0 ≡ end) × (result.reach.0 ≡ reach) }
{
    FoundLine {
        end: Offset(end as u32),
        reach: Offset(reach as u32),
    }
}

// The last space from a position back to another, which is answered if there is none behind it.
fn last_space(text: &[u8], from: usize, limit: usize) -> usize
    requires { (from ≤ limit) × (limit < length text.now) }
    ensures { LastSpace text.now from limit result }
{
    // By hand: with `rposition` a line of plain words takes a twelfth more instructions, with a `for` a fifth.
    let mut at = limit;
    while from < at {
        if text[at] == 0x20 {
            return at;
        }
        at -= 1;
    }
    at
}

// Words end at a space, and plain bytes stand behind it up to a limit: does the word that waits there end past the limit.
fn waits_behind(text: &[u8], end: usize, limit: usize) -> Option<FoundLine>
    requires { (length text.now ≤ 65535) × (end ≤ limit) × (limit < length text.now) × Plains text.now (end + 1) (limit + 1) }
    ensures { IfSome result (λ x. (x.end.0 ≡ end) × Waits text.now end limit x.reach.0) }
{
    if end == limit {
        let next = end + 1;
        if plain_at(text, next) {
            return Some(plain_found(end, next + 1));
        }
        return None;
    }
    let far = skip_plain(text, limit + 1, text.len());
    if ends_at(text, far) {
        return Some(plain_found(end, far + 1));
    }
    None
}

// The line from a position on, of so many characters at most, if there is one.
pub fn plain_line(text: &[u8], at: usize, most: u32) -> Option<FoundLine>
    requires { (length text.now ≤ 65535) × (at ≤ length text.now) × (most ≤ 4096) }
    ensures { IfSome result (λ x. PlainLine text.now at most x.end.0 x.reach.0) }
{
    let limit = at + most as usize;
    if text.len() <= limit {
        return None;
    }
    if !plain_at(text, at) {
        return None;
    }
    if !smooth_to(text, at + 1, limit + 1) {
        return None;
    }
    let end = last_space(text, at, limit);
    if end == at {
        return None;
    }
    waits_behind(text, end, limit)
}
