// A stream of clues, block by block through one buffer: each clue that ends in the block is a part of it, and is counted.
ghost use Rattle.std.specs.Prelude.{◌+◌, ◌≤◌, ◌<◌, ◌≡◌, length, take};
ghost use Rattle.meaning.specs.Month.{most_clues};
ghost use Rattle.month_figures.specs.Sums.{sums_of};
ghost use Rattle.clues.specs.Gathering.{with_clue};
ghost use Rattle.clues.specs.Counting.{Counts, Passed};

use crate::each::add_text;
use crate::feeds::find_feed;
use checks::text::check_text;
use meaning::figures::Figures;
use meaning::settings::Settings;

// Reading stops at so many clues.
pub const MOST_CLUES: u64 = 4294967295;

// How many clues are counted, and where the bytes start that belong to none of them.
#[derive(Clone, Copy)]
pub struct Ended {
    pub at: usize,
    pub clues: u64,
}

// One clue more, behind so many: checked once, and laid in each width.
pub fn add_clue(text: &[u8], s: Settings, widths: &[u32], sums: &mut [Figures], clues: u64) -> u64
    requires counts { Counts s widths.now sums.old clues }
    requires clues_lt_most_clues { clues < most_clues }
    ensures value { result ≡ clues + 1 }
    ensures sums_after { sums.new ≡ with_clue s widths.now sums.old text.now }
    ensures widths_after { sums_of widths.now sums.new ≡ with_clue s widths.now (sums_of widths.now sums.old) text.now }
{
    let checked = check_text(text);
    add_text(text, checked, s, widths, sums);
    clues + 1
}

// All clues that end in the part of the buffer from a place up to another.
pub fn count_ended(
    buffer: &[u8],
    from: usize,
    end: usize,
    s: Settings,
    widths: &[u32],
    sums: &mut [Figures],
    clues: u64,
) -> Ended
    requires from_le_end { from ≤ end }
    requires end_in_bounds { end ≤ length buffer.now }
    requires counts { Counts s widths.now sums.old clues }
    requires clues_le_most_clues { clues ≤ most_clues }
    ensures { Passed s widths.now (take end buffer.now) from clues sums.old result.at result.clues sums.new }
{
    let mut at = from;
    for n in clues..MOST_CLUES {
        let stop = find_feed(buffer, at, end);
        if end <= stop {
            return Ended { at, clues: n };
        }
        add_clue(&buffer[at..stop], s, widths, sums, n);
        at = stop + 1;
    }
    Ended {
        at,
        clues: MOST_CLUES,
    }
}
