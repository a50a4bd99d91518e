// The lines of a text up to a limit: where they end, if they are not all (rule 10).
ghost use Rattle.std.specs.Prelude.{◌≡◌};
ghost use Rattle.choosing.specs.Taking.{Takeable, taken};

use meaning::counts::Offset;
use meaning::settings::Settings;
use rows::stand::lay_row;
use stands::stand::{at_start, next_stand};

// Where the first h lines of a text end, or that it has no more of them. The line behind them is not laid, nor is it asked
// what it begins with, which looks at all of a long word.
pub fn take_lines(text: &[u8], s: Settings, h: u32) -> Option<Offset>
    requires { Takeable s text.now }
    ensures { result ≡ taken s h text.now }
{
    let mut stand = at_start(text);
    for line in 0..h {
        let row = lay_row(text, s, stand);
        if row.last {
            return None;
        }
        if line + 1 == h {
            return Some(row.next);
        }
        stand = next_stand(text, stand, row);
    }
    Some(stand.at)
}
