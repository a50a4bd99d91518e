// A block of the stream: the clues that end in it are counted, and what is left is moved to the buffer's front. A clue that fills the whole
// buffer is too long, whatever follows: it is passed over up to its line feed and counted under 3.
ghost use Rattle.std.specs.Prelude.{◌≤◌, ◌<◌, length};
ghost use Rattle.meaning.specs.Checks.{text_limit};
ghost use Rattle.meaning.specs.Month.{most_clues};
ghost use Rattle.month_figures.specs.Sums.{sums_of};
ghost use Rattle.clues.specs.Counting.{Counts};
ghost use Rattle.month.specs.Blocks.{Kept, Stepped, LongAdded, LongEnded, LastCounted};
ghost use Rattle.month.specs.Going.{WentFrom, WentOn};
ghost use Rattle.month.specs.Pending.{held_in};

use clues::each::add_text;
use clues::feeds::find_feed;
use clues::stream::{Ended, add_clue, count_ended};
use console::front::to_front;
use meaning::figures::Figures;
use meaning::refusals::Refusal;
use meaning::settings::Settings;

// How many clues are counted, and how many bytes of the next one are held at the buffer's front, unless it is too long already.
#[derive(Clone, Copy)]
pub struct Step {
    pub clues: u64,
    pub held: Option<usize>,
}

// What is left of a block is held, or is too long where it is all of the buffer.
fn keep(buffer: &mut [u8], at: usize, end: usize, clues: u64) -> Step
    requires at_le_end { at ≤ end }
    requires end_in_bounds { end ≤ length buffer.old }
    requires buffer_nonzero { 0 < length buffer.old }
    ensures { Kept buffer.old at end clues result buffer.new }
{
    if end - at == buffer.len() {
        return Step { clues, held: None };
    }
    Step {
        clues,
        held: Some(to_front(buffer, at, end)),
    }
}

// A clue that is too long, whatever its bytes are.
fn add_long(text: &[u8], s: Settings, widths: &[u32], sums: &mut [Figures], clues: u64) -> u64
    requires counts { Counts s widths.now sums.old clues }
    requires clues_lt_most_clues { clues < most_clues }
    ensures { LongAdded s widths.now sums.old clues result sums.new }
{
    let checked = Err(Refusal::TextTooLong(65536));
    add_text(text, checked, s, widths, sums);
    clues + 1
}

// The clue that is too long ends at the block's first line feed, if there is one.
fn end_long(
    buffer: &[u8],
    end: usize,
    s: Settings,
    widths: &[u32],
    sums: &mut [Figures],
    clues: u64,
) -> Option<Ended>
    requires end_in_bounds { end ≤ length buffer.now }
    requires counts { Counts s widths.now sums.old clues }
    requires clues_lt_most_clues { clues < most_clues }
    ensures { LongEnded s widths.now buffer.now sums.old end clues result sums.new }
{
    let stop = find_feed(buffer, 0, end);
    if end <= stop {
        return None;
    }
    let n = add_long(buffer, s, widths, sums, clues);
    Some(Ended {
        at: stop + 1,
        clues: n,
    })
}

// The clues that end in the buffer from a place up to another; what is left of it is kept.
fn count_from(
    buffer: &mut [u8],
    from: usize,
    end: usize,
    s: Settings,
    widths: &[u32],
    sums: &mut [Figures],
    clues: u64,
) -> Step
    requires from_le_end { from ≤ end }
    requires end_in_bounds { end ≤ length buffer.old }
    requires text_limit_in_bounds { text_limit < length buffer.old }
    requires counts { Counts s widths.now sums.old clues }
    requires clues_le_most_clues { clues ≤ most_clues }
    ensures stepped { Stepped s widths.now sums.new (length buffer.new) result }
    ensures went_from { WentFrom s widths.now buffer.old sums.old from end clues sums.new buffer.new result }
    ensures sums_went_from { WentFrom s widths.now buffer.old (sums_of widths.now sums.old) from end clues (sums_of widths.now sums.new) buffer.new result }
{
    let done = count_ended(buffer, from, end, s, widths, sums, clues);
    keep(buffer, done.at, end, done.clues)
}

// A block that was read behind what is held.
pub fn count_block(
    buffer: &mut [u8],
    end: usize,
    step: Step,
    s: Settings,
    widths: &[u32],
    sums: &mut [Figures],
) -> Step
    requires end_in_bounds { end ≤ length buffer.old }
    requires text_limit_in_bounds { text_limit < length buffer.old }
    requires counts { Counts s widths.now sums.old step.clues }
    requires clues_lt_most_clues { step.clues < most_clues }
    requires held_le_end { held_in step ≤ end }
    ensures stepped { Stepped s widths.now sums.new (length buffer.new) result }
    ensures went_on { WentOn s widths.now buffer.old sums.old end step sums.new buffer.new result }
    ensures sums_went_on { WentOn s widths.now buffer.old (sums_of widths.now sums.old) end step (sums_of widths.now sums.new) buffer.new result }
{
    if step.held.is_some() {
        return count_from(buffer, 0, end, s, widths, sums, step.clues);
    }
    match end_long(buffer, end, s, widths, sums, step.clues) {
        Some(first) => count_from(buffer, first.at, end, s, widths, sums, first.clues),
        None => Step { held: None, ..step },
    }
}

// The input has ended: what is held is a clue, though it has no line feed.
pub fn count_last(buffer: &[u8], step: Step, s: Settings, widths: &[u32], sums: &mut [Figures])
    requires held_in_bounds { held_in step ≤ length buffer.now }
    requires counts { Counts s widths.now sums.old step.clues }
    requires clues_lt_most_clues { step.clues < most_clues }
    ensures counted { LastCounted s widths.now buffer.now sums.old step sums.new }
    ensures sums_counted { LastCounted s widths.now buffer.now (sums_of widths.now sums.old) step (sums_of widths.now sums.new) }
{
    match step.held {
        None => {
            add_long(buffer, s, widths, sums, step.clues);
        }
        Some(held) => {
            if held != 0 {
                add_clue(&buffer[..held], s, widths, sums, step.clues);
            }
        }
    }
}
