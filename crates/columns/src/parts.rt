// How wide the parts of a text between its ends of lines are, laid out in one line each: by its bytes (rule 2, rule 4).
ghost use Rattle.std.specs.Prelude.{◌*◌, ◌≤◌, ◌≡◌, length};
ghost use Rattle.basis.specs.Choice.{pick};
ghost use Rattle.meaning.specs.Checks.{text_limit};
ghost use Rattle.widths.specs.LineParts.{breaks};
ghost use Rattle.widths.specs.WidestPart.{past_char, widest_part};

use crate::filling::{breaks_line, next_stop};
use crate::gauge::Gauge;

// The place behind one more byte of a part, or the front of the next part: a tab goes to its stop, and no less than a glyph is counted for it.
fn place_after(gauge: Gauge, at: u32, b: u8) -> u32
    requires { at ≤ text_limit * 4096 }
    ensures { result ≡ pick (breaks b) 0 (past_char gauge.glyph gauge.tab at b) }
{
    if breaks_line(b) {
        return 0;
    }
    let on = at + gauge.glyph;
    if b == 9 {
        let stop = next_stop(gauge, at);
        return stop.max(on);
    }
    on
}

// The width of the widest part.
pub fn widest_part(gauge: Gauge, text: &[u8]) -> u32
    requires { length text.now ≤ text_limit }
    ensures { (result ≡ widest_part gauge.glyph gauge.tab text.now) × (result ≤ text_limit * 4096) }
{
    let mut widest: u32 = 0;
    let mut at: u32 = 0;
    for b in text {
        at = place_after(gauge, at, *b);
        widest = widest.max(at);
    }
    widest
}
