// A line's end before a word that waits behind one space. It stands for rule 7 and rule 8 of the two tokens (`WaitLaws.waits-ends`), and
// saves the steps of both, and the look ahead of the space.
ghost use Rattle.std.specs.Prelude.{◌≡◌};
ghost use Rattle.meaning.specs.Cursor.{fits_in};
ghost use Rattle.meaning.specs.SpaceConfig.{spaces_width};
ghost use Rattle.moves.specs.Fine.{FinePlace};
ghost use Rattle.steps.specs.Stepping.{ran_from};
ghost use Rattle.strides.specs.Strides.{WaitReady};

use crate::going::Going;
use meaning::counts::{Chars, Pixels};
use meaning::cursor::Place;
use meaning::line::LineEnd;
use meaning::settings::Settings;
use moves::cursor::fits;
use moves::measure::noted_space;
use moves::space_config::spaces_width;
use steps::ending::ends_before;
use steps::step::Ended;

// Whether one more space fits. The space before a word that waits is left out if not, and else counted, with no width.
pub fn space_fits(p: Place) -> bool
    requires { FinePlace p }
    ensures { result ≡ fits_in p.cursor (spaces_width p.spaces 1) }
{
    fits(p.cursor, spaces_width(p.spaces, 1))
}

pub fn ends_waiting(text: &[u8], s: Settings, g: Going) -> Ended
    requires { WaitReady s text.now g }
    ensures { result ≡ ran_from s g.place text.now g.at.0 0 0 g.measure }
{
    let p = g.place;
    let m = g.measure;
    if !space_fits(p) {
        return ends_before(
            LineEnd::LineBreak,
            m,
            g.waits.next,
            Chars(0),
            g.waits.looked,
        );
    }
    let spaced = noted_space(m, Chars(1), Pixels(0));
    ends_before(
        LineEnd::LineBreak,
        spaced,
        g.waits.next,
        Chars(0),
        g.waits.reach,
    )
}
