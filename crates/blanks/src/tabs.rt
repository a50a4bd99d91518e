// What a tab does to a line (rule 4 and rule 8).
ghost use Rattle.std.specs.Prelude.{◌≡◌};
ghost use Rattle.meaning.specs.declared.tokens.TokenKind.TheVariants.{Tab};
ghost use Rattle.steps.specs.Ready.{Ready, step_from};
ghost use Rattle.steps.specs.Foreseeing.{ForeseesAfter};

use crate::spaces::draws_space;
use meaning::counts::{Chars, Offset, Pixels};
use meaning::cursor::Place;
use meaning::line::Measure;
use meaning::settings::Settings;
use moves::cursor::{fits, room, tab_width};
use moves::measure::noted_space;
use moves::place::{moved_on, skips_space};
use parser::lexeme::Lexeme;
use steps::foreseen::Look;
use steps::step::Stepped;

// A tab: skipped at the front of a line. One that fits moves the cursor, drawn or not; else pen and cursor go to the edge, by the room.
pub fn on_tab(
    text: &[u8],
    s: Settings,
    p: Place,
    at: usize,
    x: Lexeme,
    m: Measure,
    seen: Option<Look>,
) -> Stepped
    requires { Ready s p text.now at x m × (x.kind ≡ Tab) × ForeseesAfter s p text.now x seen }
    ensures { result ≡ step_from s p text.now at x m }
{
    if skips_space(s, p) {
        return Stepped::Go(p, m, Offset(0));
    }
    let width = tab_width(p.cursor);
    if fits(p.cursor, width) {
        let q = moved_on(p, width);
        let look = draws_space(text, s, q, x.end.0 as usize, seen);
        return Stepped::Go(q, noted_space(m, Chars(0), Pixels(width)), look.reach);
    }
    let left = room(p.cursor);
    let edge = moved_on(p, left);
    Stepped::Go(edge, noted_space(m, Chars(0), Pixels(left)), Offset(0))
}
