// The width that a search begins with: in each narrower box the text fills too many lines (rule 8, rule 10).
ghost use Rattle.std.specs.Prelude.{◌≤◌, ◌≡◌, Ok};
ghost use Rattle.utf8.specs.Decoding.{decode_all};
ghost use Rattle.meaning.specs.Checks.{check_utf8};
ghost use Rattle.rows.specs.RowsFrom.{TextReady};
ghost use Rattle.columns.specs.Skipping.{SmallSkips};
ghost use Rattle.columns.specs.FirstWidth.{NoneBelow, Begins};

use crate::filling::lines_filled;
use crate::gauge::Gauge;
use crate::skipping::Skips;
use crate::width::WIDEST_BOX;
use meaning::settings::Settings;

// The first width in which it fills fewer than h lines, by halving; past all widths if there is none. Halving has no `for`, and the library
// halves a slice, not a range of numbers.
fn room_width(s: Settings, text: &[u8], h: u32) -> u32
    requires { TextReady s text.now × (check_utf8 text.now ≡ Ok tt) }
    ensures { (result ≤ 4097) × NoneBelow s h (decode_all text.now) result }
{
    let lines = h as usize;
    let mut low: u32 = 0;
    let mut high = WIDEST_BOX + 1;
    while low < high {
        let middle = (low + high) / 2;
        let gauge = Gauge {
            glyph: s.glyph.0,
            tab: s.tab.0,
            width: middle,
        };
        let filled = lines_filled(gauge, text);
        if lines <= filled {
            low = middle + 1;
        } else {
            high = middle;
        }
    }
    low
}

// Whole steps of that, or past all widths.
pub fn first_width(s: Settings, text: &[u8], h: u32, skips: Skips) -> u32
    requires { TextReady s text.now × (check_utf8 text.now ≡ Ok tt) × SmallSkips skips }
    ensures { Begins s h (decode_all text.now) skips result }
{
    let least = room_width(s, text, h);
    if WIDEST_BOX < least {
        return least;
    }
    least / skips.step * skips.step
}
