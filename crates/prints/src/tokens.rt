// The events of one token (rule 8, rule 9, rule 13).
ghost use Rattle.std.specs.Prelude.{◌+◌, ◌*◌, ◌≤◌, ◌≡◌, length};
ghost use Rattle.basis.specs.Choice.{pick};
ghost use Rattle.meaning.specs.declared.tokens.TokenKind.TheVariants.{Word, Tab};
ghost use Rattle.meaning.specs.declared.line.EventKind.TheVariants.{Space, Move};
ghost use Rattle.steps.specs.Foreseeing.{ForeseesAfter};
ghost use Rattle.ink.specs.Sheet.{sheet, drawn_on};
ghost use Rattle.prints.specs.TokenDrawn.{tok_drawn, run_drawn, print_drawn, PenRoom, DrawReady, TokenReady};

use crate::grown::{Grown, growth};
use blanks::spaces::draws_space;
use ink::pen::{Pen, put_one};
use meaning::cursor::Place;
use meaning::line::{EventKind, Measure};
use meaning::settings::Settings;
use meaning::tokens::TokenKind;
use moves::cursor::{fits, room, tab_width};
use moves::place::{moved_on, skips_space};
use parser::lexeme::Lexeme;
use parser::part::part_of;
use steps::foreseen::Look;
use steps::step::Stepped;

// A space run by what it added to the measure.
fn draw_run(text: &[u8], at: usize, x: Lexeme, g: Grown, pen: Pen, events: &mut [u32]) -> Pen
    requires { PenRoom pen × (g.width.0 ≤ 8192 * 65535) × (length text.now ≤ 65535) × (at ≤ 65535) × (x.end.0 ≤ 65535) }
    ensures { sheet events.new result ≡ drawn_on (sheet events.old pen) (run_drawn text.now at x g) }
{
    let n = g.count.0;
    let width = g.width.0;
    if g.whole {
        return put_one(
            events,
            pen,
            EventKind::Space,
            at,
            x.end.0 as usize,
            n,
            width,
        );
    }
    if n == 0 {
        return pen;
    }
    let part = part_of(text, at, n.min(x.chars.0));
    put_one(
        events,
        pen,
        EventKind::Space,
        at,
        part.end.0 as usize,
        n,
        width,
    )
}

// One print from an offset to another, if it added a width.
fn draw_print(at: usize, to: usize, g: Grown, pen: Pen, events: &mut [u32]) -> Pen
    requires { PenRoom pen × (g.width.0 ≤ 8192 * 65535) × (at ≤ 65535) × (to ≤ 65535) }
    ensures { sheet events.new result ≡ drawn_on (sheet events.old pen) (print_drawn at to g) }
{
    let width = g.width.0;
    if width == 0 {
        return pen;
    }
    put_one(events, pen, EventKind::Printed, at, to, 0, width)
}

// A tab before a word that does not fit is a move.
fn tab_kind(fits: bool) -> EventKind
    ensures { result ≡ pick fits Space Move }
{
    if fits {
        return EventKind::Space;
    }
    EventKind::Move
}

// A tab: skipped at the front of a line, and a move by the room where it does not fit.
fn draw_tab(
    text: &[u8],
    s: Settings,
    p: Place,
    at: usize,
    x: Lexeme,
    seen: Option<Look>,
    pen: Pen,
    events: &mut [u32],
) -> Pen
    requires { DrawReady s p text.now at x pen × (x.kind ≡ Tab) × ForeseesAfter s p text.now x seen }
    ensures { sheet events.new result ≡ drawn_on (sheet events.old pen) (tok_drawn s p text.now at x) }
{
    if skips_space(s, p) {
        return pen;
    }
    let width = tab_width(p.cursor);
    let next = x.end.0 as usize;
    if fits(p.cursor, width) {
        let q = moved_on(p, width);
        let look = draws_space(text, s, q, next, seen);
        let kind = tab_kind(look.fits);
        return put_one(events, pen, kind, at, next, 0, width);
    }
    put_one(events, pen, EventKind::Move, at, next, 0, room(p.cursor))
}

// What the token x at an offset draws, which is no word (words.rt), after what was measured before it and what its step answered, and
// with what is known of the look from after it.
pub fn draw_token(
    text: &[u8],
    s: Settings,
    p: Place,
    at: usize,
    x: Lexeme,
    m: Measure,
    stepped: Stepped,
    seen: Option<Look>,
    pen: Pen,
    events: &mut [u32],
) -> Pen
    requires { TokenReady s p text.now at x m stepped pen × ForeseesAfter s p text.now x seen × (x.kind ≡ Word → ⊥) }
    ensures { sheet events.new result ≡ drawn_on (sheet events.old pen) (tok_drawn s p text.now at x) }
{
    match x.kind {
        TokenKind::Word => pen,
        TokenKind::Whitespace => draw_run(text, at, x, growth(m, stepped), pen, events),
        TokenKind::Tab => draw_tab(text, s, p, at, x, seen, pen, events),
        TokenKind::Break => draw_print(at, at + 2, growth(m, stepped), pen, events),
        TokenKind::NewLine => put_one(events, pen, EventKind::Space, at, at + 1, 0, 0),
        TokenKind::CarriageReturn => put_one(events, pen, EventKind::Space, at, at + 1, 0, 0),
    }
}
