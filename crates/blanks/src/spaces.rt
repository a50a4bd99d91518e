// What a space run does to a line (rule 5, rule 8 and rule 9).
ghost use Rattle.std.specs.Prelude.{◌+◌, ◌≤◌, ◌<◌, ◌≡◌, length};
ghost use Rattle.meaning.specs.Tokens.{tokens};
ghost use Rattle.meaning.specs.LineIter.{held_after, draws_space};
ghost use Rattle.meaning.specs.declared.tokens.TokenKind.TheVariants.{Whitespace};
ghost use Rattle.parser.specs.Lexing.{chars_from};
ghost use Rattle.moves.specs.Fine.{FineSettings, FinePlace};
ghost use Rattle.steps.specs.Stepping.{look_of, resumed_at};
ghost use Rattle.steps.specs.Ready.{Ready, step_from};
ghost use Rattle.steps.specs.Foreseeing.{Foresees, ForeseesAfter};
ghost use Rattle.steps.specs.Runs.{CutRun, cut_answer, WholeRun, whole_answer};

use crate::line_iter::next_word_fits;
use meaning::counts::{Chars, Offset, Pixels};
use meaning::cursor::Place;
use meaning::line::{LineEnd, Measure};
use meaning::settings::Settings;
use moves::cursor::{fits, room};
use moves::measure::noted_space;
use moves::place::{moved_on, skips_space, used_up};
use moves::space_config::spaces_width;
use parser::lexeme::Lexeme;
use parser::part::part_of;
use steps::ending::nothing_left;
use steps::foreseen::Look;
use steps::step::{Ended, Resumed, Stepped};

// What is held of a run of so many characters and counted spaces that ends at an offset, of which some are taken.
pub fn held_rest(end: Offset, chars: Chars, count: Chars, taken: u32) -> Resumed
    requires { (taken ≤ count.0) × (count.0 ≤ chars.0) }
    ensures { result ≡ resumed_at end.0 (held_after chars.0 count.0 taken) }
{
    if chars.0 <= taken {
        return nothing_left();
    }
    Resumed {
        end,
        chars: Chars(chars.0 - taken),
        count: Chars(count.0 - taken),
    }
}

// A run that is too wide: the spaces that fit count, one more is taken, and the rest is held for the next line.
fn cut_run(
    text: &[u8],
    s: Settings,
    p: Place,
    at: usize,
    x: Lexeme,
    width: u32,
    m: Measure,
) -> Stepped
    requires { CutRun s p text.now at x width m }
    ensures { result ≡ cut_answer s p text.now at x width m }
{
    let single = width / x.count.0;
    let fitting = room(p.cursor) / single;
    let taken = (fitting + 1).min(x.count.0);
    let part = part_of(text, at, taken);
    let next = part.end;
    let measure = noted_space(m, Chars(fitting), Pixels(0));
    let rest = held_rest(x.end, x.chars, x.count, taken);
    Stepped::Stop(Ended {
        ended: LineEnd::LineBreak,
        measure,
        next,
        rest,
        dropped: Chars(0),
        reach: Offset(0),
    })
}

// Whether white space is drawn that ends at an offset, after which the line stands at q: only the last test looks ahead, and only
// where the look is not known.
pub fn draws_space(text: &[u8], s: Settings, q: Place, at: usize, seen: Option<Look>) -> Look
    requires { FineSettings s × FinePlace q × (length text.now ≤ 65535) × (at ≤ length text.now) × Foresees s.glyph.0 q.cursor q.spaces at (tokens (chars_from text.now at)) seen }
    ensures { result ≡ look_of (draws_space s q at (tokens (chars_from text.now at))) }
{
    if q.empty {
        return Look {
            fits: true,
            reach: Offset(0),
        };
    }
    if let Some(look) = seen {
        return look;
    }
    next_word_fits(text, at, s.glyph.0, q.cursor, q.spaces)
}

// A run of so many spaces and such a width that fits, and after which the line stands at q.
fn whole_run(
    text: &[u8],
    s: Settings,
    q: Place,
    x: Lexeme,
    width: u32,
    m: Measure,
    seen: Option<Look>,
) -> Stepped
    requires { WholeRun s q text.now x width m seen }
    ensures { result ≡ whole_answer s q text.now x width m }
{
    let look = draws_space(text, s, q, x.end.0 as usize, seen);
    if look.fits {
        return Stepped::Go(q, noted_space(m, x.count, Pixels(width)), look.reach);
    }
    Stepped::Go(q, noted_space(m, x.count, Pixels(0)), look.reach)
}

// A space run: skipped at the front of a line, drawn where it fits, else cut. Its spaces are used up whatever becomes of it.
pub fn on_space(
    text: &[u8],
    s: Settings,
    p: Place,
    at: usize,
    x: Lexeme,
    m: Measure,
    seen: Option<Look>,
) -> Stepped
    requires { Ready s p text.now at x m × (x.kind ≡ Whitespace) × ForeseesAfter s p text.now x seen }
    ensures { result ≡ step_from s p text.now at x m }
{
    let used = used_up(p, x.count.0);
    if skips_space(s, p) {
        return Stepped::Go(used, noted_space(m, x.count, Pixels(0)), Offset(0));
    }
    let width = spaces_width(p.spaces, x.count.0);
    if fits(p.cursor, width) {
        return whole_run(text, s, moved_on(used, width), x, width, m, seen);
    }
    cut_run(text, s, p, at, x, width, m)
}
