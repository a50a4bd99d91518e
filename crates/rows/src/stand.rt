// The one step that every loop over lines takes: the line where it stands is laid. `next_stand` of `stands` stands on the next (rule 10).
ghost use Rattle.std.specs.Prelude.{◌≡◌};
ghost use Rattle.rows.specs.Standing.{StandReady, laid_row};

use crate::line::lay_line;
use meaning::settings::Settings;
use stands::row::LaidRow;
use stands::stand::Stand;

// The line at a stand.
pub fn lay_row(text: &[u8], s: Settings, stand: Stand) -> LaidRow
    requires { StandReady s text.now stand }
    ensures { result ≡ laid_row s text.now stand }
{
    let at = stand.at.0 as usize;
    let held = stand.rest;
    lay_line(text, s, at, stand.before, held, stand.known)
}
