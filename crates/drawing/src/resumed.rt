// The events of a line that resumes a rest too wide for it: no step is needed to cut the rest again (rule 9, rule 13).
ghost use Rattle.std.specs.Prelude.{◌≤◌, ◌≡◌, true};
ghost use Rattle.moves.specs.Fine.{FinePlace};
ghost use Rattle.blanks.specs.CutRests.{CutRest};
ghost use Rattle.ink.specs.Sheet.{sheet, drawn_on};
ghost use Rattle.drawing.specs.Drawn.{drawn_from};
ghost use Rattle.drawing.specs.DrawingOn.{PenReady};

use ink::pen::{Pen, put_one};
use meaning::cursor::Place;
use meaning::line::EventKind;
use meaning::settings::Settings;
use moves::cursor::room;
use steps::step::Resumed;

// Whether a rest is too wide for its line, is not skipped, has spaces of one width and characters of one byte.
pub fn is_cut_rest(s: Settings, p: Place, at: usize, rest: Resumed) -> bool
    requires { FinePlace p × (rest.count.0 ≤ 65535) × (rest.chars.0 ≤ 65535) × (at ≤ 65535) }
    ensures { result ≡ true → CutRest s p at rest }
{
    if rest.chars.0 == 0 {
        return false;
    }
    if rest.count.0 * p.spaces.width.0 <= room(p.cursor) {
        return false;
    }
    if s.leading != 1 {
        return false;
    }
    if p.spaces.extra.0 != 0 {
        return false;
    }
    let end = at + rest.chars.0 as usize;
    rest.end.0 as usize == end
}

// Such a rest: as many spaces as fit, without a width.
pub fn draw_rest(
    text: &[u8],
    s: Settings,
    p: Place,
    at: usize,
    rest: Resumed,
    pen: Pen,
    events: &mut [u32],
) -> Pen
    requires { PenReady s p text.now at rest pen × CutRest s p at rest }
    ensures { sheet events.new result ≡ drawn_on (sheet events.old pen) (drawn_from s p text.now at rest.chars.0 rest.count.0) }
{
    let n = room(p.cursor) / p.spaces.width.0;
    if n == 0 {
        return pen;
    }
    put_one(events, pen, EventKind::Space, at, at + n as usize, n, 0)
}
