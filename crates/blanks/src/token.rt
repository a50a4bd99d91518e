// What one token does to a line (rule 7, rule 8 and rule 9).
ghost use Rattle.std.specs.Prelude.{◌≡◌};
ghost use Rattle.steps.specs.Ready.{Ready, step_from};
ghost use Rattle.steps.specs.Foreseeing.{ForeseesAfter};

use crate::hyphens::on_break;
use crate::spaces::on_space;
use crate::tabs::on_tab;
use meaning::counts::{Chars, Offset};
use meaning::cursor::Place;
use meaning::line::{LineEnd, Measure};
use meaning::settings::Settings;
use meaning::tokens::TokenKind;
use parser::lexeme::Lexeme;
use steps::ending::ends_before;
use steps::foreseen::Look;
use steps::step::Stepped;
use steps::words::on_word;

// What the token x at an offset does, and what is known of the look from after it.
pub fn step_token(
    text: &[u8],
    s: Settings,
    p: Place,
    at: usize,
    x: Lexeme,
    m: Measure,
    seen: Option<Look>,
) -> Stepped
    requires { Ready s p text.now at x m × ForeseesAfter s p text.now x seen }
    ensures { result ≡ step_from s p text.now at x m }
{
    let next = x.end;
    match x.kind {
        TokenKind::Word => on_word(text, s, p, at, x, m),
        TokenKind::Whitespace => on_space(text, s, p, at, x, m, seen),
        TokenKind::Tab => on_tab(text, s, p, at, x, m, seen),
        TokenKind::Break => on_break(text, s, p, at, x, m),
        TokenKind::NewLine => Stepped::Stop(ends_before(
            LineEnd::NewLine,
            m,
            next,
            Chars(0),
            Offset(0),
        )),
        TokenKind::CarriageReturn => Stepped::Stop(ends_before(
            LineEnd::CarriageReturn,
            m,
            next,
            Chars(0),
            Offset(0),
        )),
    }
}
