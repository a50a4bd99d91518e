// The figures of one text: those of a text that is refused, and of one in one width (refusal 3, refusal 4).
ghost use Rattle.std.specs.Prelude.{◌≡◌, [], eqb, Ok};
ghost use Rattle.basis.specs.Choice.{pick};
ghost use Rattle.meaning.specs.Month.{figures_by};
ghost use Rattle.rows.specs.RowsFrom.{TextReady, entries_of};

use crate::tally::laid_figures;
use meaning::figures::Figures;
use meaning::refusals::Refusal;
use meaning::settings::Settings;
use month_figures::counted::refused_figures;

// Of a text that was checked, laid with these settings.
pub fn figures_in(text: &[u8], checked: Result<(), Refusal>, s: Settings) -> Figures
    requires { checked ≡ Ok tt → TextReady s text.now }
    ensures { result ≡ figures_by checked (entries_of s text.now) }
{
    match checked {
        Ok(()) => laid_figures(text, s),
        Err(refusal) => refused_figures(refusal),
    }
}
