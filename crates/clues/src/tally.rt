// The lines of a text, laid one by one and counted: no table is written (rule 10).
ghost use Rattle.std.specs.Prelude.{◌+◌, ◌≤◌, ◌≡◌, Ok};
ghost use Rattle.meaning.specs.Checks.{text_limit};
ghost use Rattle.meaning.specs.Month.{figures_by};
ghost use Rattle.rows.specs.RowsFrom.{TextReady, entries_of};
ghost use Rattle.month_figures.specs.Tallies.{no_lines, with_line, tally_figures};

use meaning::figures::Figures;
use meaning::settings::Settings;
use month_figures::counted::{no_lines, tally_figures, with_line};
use rows::stand::lay_row;
use stands::stand::{at_start, next_stand};

// The figures of a text that is good. No `for`: that a line is the last is known when it is laid.
pub fn laid_figures(text: &[u8], s: Settings) -> Figures
    requires { TextReady s text.now }
    ensures { result ≡ figures_by (Ok tt) (entries_of s text.now) }
{
    let mut tally = no_lines();
    let mut stand = at_start(text);
    loop {
        let row = lay_row(text, s, stand);
        tally = with_line(tally, row.entry.ending, row.entry.dropped.0);
        if row.last {
            return tally_figures(tally);
        }
        stand = next_stand(text, stand, row);
    }
}
