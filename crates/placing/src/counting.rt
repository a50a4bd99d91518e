// Words of any letters behind those that a line begins with, counted in characters as `quick.rt` counts them (rule 8, rule 10).
ghost use Rattle.std.specs.Prelude.{◌/◌, ◌≡◌};
ghost use Rattle.steps.specs.Unrolled.{nothing_resumed};
ghost use Rattle.placing.specs.Laying.{LineReady};
ghost use Rattle.placing.specs.Quick.{Counting, CountedWords};

use crate::quick::{Counted, counted_at};
use meaning::settings::Settings;
use pairs::told::told_pair;
use strides::going::{Waiting, nothing_waits};

// Words behind those that were counted, told by their bytes or read.
pub fn count_on(
    text: &[u8],
    s: Settings,
    at: usize,
    most: u32,
    from: u32,
    before: u32,
    gaps: u32,
) -> Counted
    requires { LineReady s text.now at nothing_resumed × (most ≡ s.width.0 / s.glyph.0) × Counting text.now at most from before gaps }
    ensures { CountedWords s text.now at result }
{
    let mut end = from;
    let mut columns = before;
    let mut spaces = gaps;
    loop {
        let Some(pair) = told_pair(text, end as usize) else {
            return counted_at(end, columns, spaces, nothing_waits());
        };
        let next = pair.from;
        let n = pair.word.chars.0;
        if most - columns <= n {
            return counted_at(
                end,
                columns,
                spaces,
                Waiting {
                    next,
                    looked: pair.looked,
                    reach: pair.word.reach,
                },
            );
        }
        let g = pair.word.weight.0;
        columns += 1 + n;
        spaces += 1 + g;
        end = pair.word.end.0;
    }
}
