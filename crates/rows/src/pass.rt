// One pass over a line, in strides of words where it can, else token by token (rule 8, rule 9, rule 12).
ghost use Rattle.std.specs.Prelude.{◌≡◌};
ghost use Rattle.steps.specs.Stepping.{ran_from};
ghost use Rattle.steps.specs.Unrolled as unrolled;
ghost use Rattle.steps.specs.Knowing.{KnownFits};
ghost use Rattle.steps.specs.Running.{PassReady};

use blanks::ahead::look_after;
use blanks::token::step_token;
use meaning::counts::{Chars, Offset};
use meaning::cursor::Place;
use meaning::line::{LineEnd, Measure};
use meaning::settings::Settings;
use parser::lexeme::Lexeme;
use steps::ending::{ends_before, nothing_left};
use steps::first::{Known, first_token};
use steps::foreseen::Look;
use steps::step::{Ended, Resumed, Stepped};
use strides::strides::strides_unless;
use strides::waiting::ends_waiting;

// The same end of a pass, that has looked as far as an offset besides.
fn looked_to(reach: u32, e: Ended) -> Ended
    ensures { result ≡ unrolled.farther reach e }
{
    let far = reach.max(e.reach.0);
    let mut all = e;
    all.reach.0 = far;
    all
}

// A pass from a place and an offset on, after a resumed rest and what was measured before it. A word may be known there.
pub fn run_pass(
    text: &[u8],
    s: Settings,
    start: Place,
    from: usize,
    rest: Resumed,
    m: Measure,
    known: Known,
) -> Ended
    requires { PassReady s start text.now from rest m × KnownFits text.now known }
    ensures { result ≡ ran_from s start text.now from rest.chars.0 rest.count.0 m }
{
    let mut p = start;
    let mut at = from;
    let mut held = rest;
    let mut sum = m;
    let mut reach: u32 = 0;
    let mut seen = None;
    loop {
        let g = strides_unless(text, s, p, at, held, sum, seen);
        if g.waits.next.0 != 0 {
            return looked_to(reach, ends_waiting(text, s, g));
        }
        let here = g.place;
        let so = g.measure;
        let to = g.at.0 as usize;
        let token = first_token(text, to, held, known);
        let Some(x) = token else {
            let end = g.at;
            let far = reach.max(end.0 + 1);
            return ends_before(LineEnd::EndOfText, so, end, Chars(0), Offset(far));
        };
        let ahead = look_after(text, s, here, to, x, seen);
        let stepped = step_token(text, s, here, to, x, so, ahead);
        match stepped {
            Stepped::Go(q, n, far) => {
                reach = reach.max(x.reach.0.max(far.0));
                p = q;
                sum = n;
                at = x.end.0 as usize;
                held = nothing_left();
                seen = ahead;
            }
            Stepped::Stop(e) => {
                return looked_to(reach.max(x.reach.0), e);
            }
        }
    }
}
