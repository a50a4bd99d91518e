// A line that begins with a word too wide for it is the longest part of the word that fits (rule 8): it is drawn as it was measured.
ghost use Rattle.std.specs.Prelude.{◌≡◌, Some};
ghost use Rattle.meaning.specs.Tokens.{tokens};
ghost use Rattle.meaning.specs.declared.tokens.TokenKind.TheVariants.{Word};
ghost use Rattle.parser.specs.Lexing.{chars_from, lexed_at};
ghost use Rattle.steps.specs.Unrolled.{nothing_resumed};
ghost use Rattle.placing.specs.Laying.{LineReady};
ghost use Rattle.steps.specs.Knowing.{KnownFits};
ghost use Rattle.placing.specs.Quick.{QuickLine};

use crate::known::known_word;
use crate::quick::Quick;
use meaning::counts::{Chars, Pixels};
use meaning::line::LineEnd;
use meaning::settings::Settings;
use moves::measure::printed_at;
use parser::lexeme::Lexeme;
use parser::part::part_of;
use steps::ending::ends_before;
use steps::first::Known;

// The line of a word's first characters, if some fit and not all do.
fn cut_part(text: &[u8], s: Settings, at: usize, x: Lexeme) -> Option<Quick>
    requires { LineReady s text.now at nothing_resumed × (lexed_at at (tokens (chars_from text.now at)) ≡ Some x) × (x.kind ≡ Word) }
    ensures { QuickLine s text.now at result }
{
    let glyph = s.glyph.0;
    let most = s.width.0 / glyph;
    if most == 0 {
        return None;
    }
    if x.chars.0 <= most {
        return None;
    }
    let part = part_of(text, at, most);
    let wide = most * glyph;
    let next = part.end;
    let m = printed_at(Pixels(wide), part.glues);
    let e = ends_before(LineEnd::LineBreak, m, next, Chars(0), x.reach);
    Some(Quick {
        ended: e,
        taken: Chars(most),
    })
}

// The line at an offset, if a known word is cut there.
pub fn cut_line(text: &[u8], s: Settings, at: usize, known: Known) -> Option<Quick>
    requires { LineReady s text.now at nothing_resumed × KnownFits text.now known }
    ensures { QuickLine s text.now at result }
{
    let x = known_word(known, at)?;
    cut_part(text, s, at, x)
}
