// By how much the measure of a line grew in one step (rule 10, rule 13).
ghost use Rattle.std.specs.Prelude.{◌≡◌};
ghost use Rattle.prints.specs.TokenDrawn.{measure_of, grown_by, Grows};

use meaning::counts::{Chars, Pixels};
use meaning::line::Measure;
use steps::step::Stepped;

// Whether the token was taken whole, and the spaces and the width that it added: both stand in either case, as a run that is cut adds
// the spaces that fit.
#[derive(Clone, Copy)]
pub struct Grown {
    pub whole: bool,
    pub count: Chars,
    pub width: Pixels,
}

pub fn growth(m: Measure, stepped: Stepped) -> Grown
    requires { Grows m (measure_of stepped) }
    ensures { result ≡ grown_by m stepped }
{
    match stepped {
        Stepped::Go(_, n, _) => Grown {
            whole: true,
            count: Chars(n.spaces.0 - m.spaces.0),
            width: Pixels(n.pen.0 - m.pen.0),
        },
        Stepped::Stop(e) => Grown {
            whole: false,
            count: Chars(e.measure.spaces.0 - m.spaces.0),
            width: Pixels(e.measure.pen.0 - m.pen.0),
        },
    }
}
