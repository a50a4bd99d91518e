// The figures of each width, and one text more in all of them.
ghost use Rattle.std.specs.Prelude.{max, ◌≡◌};
ghost use Rattle.meaning.specs.Month.{together};
ghost use Rattle.clues.specs.Summing.{added_to};
ghost use Rattle.month_figures.specs.Rooms.{Room};
ghost use Rattle.clues.specs.Adding.{EachReady};
ghost use Rattle.month_figures.specs.Sums.{sums_of};

use crate::one::figures_in;
use columns::width::with_width;
use meaning::figures::Figures;
use meaning::refusals::Refusal;
use meaning::settings::Settings;
use month_figures::adding::both;

// A text that was checked once is laid in each width, and its figures are added to those of that width.
pub fn add_text(
    text: &[u8],
    checked: Result<(), Refusal>,
    s: Settings,
    widths: &[u32],
    sums: &mut [Figures],
)
    requires { EachReady s text.now checked widths.now sums.old }
    ensures added { sums.new ≡ added_to s text.now checked widths.now sums.old }
    ensures sums_added { sums_of widths.now sums.new ≡ added_to s text.now checked widths.now (sums_of widths.now sums.old) }
{
    for k in 0..widths.len() {
        let more = figures_in(text, checked, with_width(s, widths[k]));
        sums[k] = both(sums[k], more);
    }
}
