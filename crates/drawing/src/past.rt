// One token drawn, and how the pass goes on: a word without its step, any other token by it (rule 8, rule 9, rule 13).
ghost use Rattle.std.specs.Prelude.{◌≡◌};
ghost use Rattle.meaning.specs.Line.{unmeasured};
ghost use Rattle.meaning.specs.declared.tokens.TokenKind.TheVariants.{Word};
ghost use Rattle.steps.specs.Ready.{Ready};
ghost use Rattle.steps.specs.Foreseeing.{ForeseesAfter};
ghost use Rattle.ink.specs.Sheet.{sheet, drawn_on};
ghost use Rattle.prints.specs.TokenDrawn.{tok_drawn, PenRoom};
ghost use Rattle.drawing.specs.PastTokens.{Went};

use blanks::token::step_token;
use ink::pen::Pen;
use meaning::cursor::Place;
use meaning::settings::Settings;
use meaning::tokens::TokenKind;
use moves::cursor::fits;
use moves::measure::nothing_measured;
use parser::lexeme::Lexeme;
use prints::tokens::draw_token;
use prints::words::{draw_cut, draw_whole};
use steps::foreseen::Look;
use steps::step::Stepped;
use steps::words::word_place;

// The place from which the pass goes on, or none where it ends, and the pen.
#[derive(Clone, Copy)]
pub struct Past {
    pub place: Option<Place>,
    pub pen: Pen,
}

// A word goes on where it fits.
fn past_word(
    text: &[u8],
    s: Settings,
    p: Place,
    at: usize,
    x: Lexeme,
    pen: Pen,
    events: &mut [u32],
) -> Past
    requires { Ready s p text.now at x unmeasured × PenRoom pen × (x.kind ≡ Word) }
    ensures pen_after { sheet events.new result.pen ≡ drawn_on (sheet events.old pen) (tok_drawn s p text.now at x) }
    ensures went { Went s p text.now at x result.place }
{
    if fits(p.cursor, x.chars.0 * s.glyph.0) {
        let whole = draw_whole(text, s, p, at, x, pen, events);
        let place = word_place(s.glyph, p, x.chars, x.glues);
        return Past {
            place: Some(place),
            pen: whole,
        };
    }
    let cut = draw_cut(text, s, p, at, x, pen, events);
    Past {
        place: None,
        pen: cut,
    }
}

// Any other token.
fn past_step(
    text: &[u8],
    s: Settings,
    p: Place,
    at: usize,
    x: Lexeme,
    ahead: Option<Look>,
    pen: Pen,
    events: &mut [u32],
) -> Past
    requires { Ready s p text.now at x unmeasured × PenRoom pen × ForeseesAfter s p text.now x ahead × (x.kind ≡ Word → ⊥) }
    ensures pen_after { sheet events.new result.pen ≡ drawn_on (sheet events.old pen) (tok_drawn s p text.now at x) }
    ensures went { Went s p text.now at x result.place }
{
    let none = nothing_measured();
    let stepped = step_token(text, s, p, at, x, none, ahead);
    let drawn = draw_token(text, s, p, at, x, none, stepped, ahead, pen, events);
    match stepped {
        Stepped::Go(q, _, _) => Past {
            place: Some(q),
            pen: drawn,
        },
        Stepped::Stop(_) => Past {
            place: None,
            pen: drawn,
        },
    }
}

// The token x at an offset, and what is known of the look from after it.
pub fn past_token(
    text: &[u8],
    s: Settings,
    p: Place,
    at: usize,
    x: Lexeme,
    ahead: Option<Look>,
    pen: Pen,
    events: &mut [u32],
) -> Past
    requires { Ready s p text.now at x unmeasured × PenRoom pen × ForeseesAfter s p text.now x ahead }
    ensures pen_after { sheet events.new result.pen ≡ drawn_on (sheet events.old pen) (tok_drawn s p text.now at x) }
    ensures went { Went s p text.now at x result.place }
{
    match x.kind {
        TokenKind::Word => past_word(text, s, p, at, x, pen, events),
        _ => past_step(text, s, p, at, x, ahead, pen, events),
    }
}
