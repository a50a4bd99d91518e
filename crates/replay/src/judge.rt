// What the library says of a line of the recording.
ghost use Rattle.std.specs.Prelude.{◌≡◌, true, [], ◌∷◌, take, IfOk};
ghost use Rattle.replay.specs.Shape.{part, Parts};
ghost use Rattle.replay.specs.Record.{Judged, Told};

use crate::case::{bytes, layout_agrees, settings, tokens_agree};
use crate::malformed::Malformed;
use crate::numbers::parse;
use crate::shape::{BYTES, Case, SETTINGS, shape_of};

// Where a case has its text, behind the settings and the count of its bytes.
const TEXT: usize = SETTINGS + 1;

// The most numbers of a line.
const NUMBERS: usize = 4096;

#[derive(Clone, Copy)]
pub enum Verdict {
    Comment,
    Agrees,
    Differs,
}

// The text is what the case has for it.
fn judge_text(numbers: &[u32], text: &[u8], c: Case) -> Verdict
    requires parts { Parts numbers.now c }
    requires text_value { text.now ≡ part numbers.now 6 c.tokens }
    ensures { Judged numbers.now result }
{
    if !tokens_agree(text, &numbers[c.tokens + 1..c.lines]) {
        return Verdict::Differs;
    }
    let s = settings(numbers);
    let lines = &numbers[c.lines + 1..c.events];
    if !layout_agrees(s, text, lines, &numbers[c.events + 1..]) {
        return Verdict::Differs;
    }
    Verdict::Agrees
}

fn judge_case(numbers: &[u32], c: Case) -> Result<Verdict, Malformed>
    requires { Parts numbers.now c }
    ensures { IfOk result (Judged numbers.now) }
{
    let mut text = [0u8; BYTES as usize];
    bytes(&numbers[TEXT..c.tokens], &mut text)?;
    Ok(judge_text(numbers, &text[..c.tokens - TEXT], c))
}

fn judge_numbers(numbers: &[u32]) -> Result<Verdict, Malformed>
    ensures { IfOk result (Judged numbers.now) }
{
    let c = shape_of(numbers)?;
    judge_case(numbers, c)
}

fn is_comment(line: &[u8]) -> bool
    ensures { result ≡ true → take 1 line.now ≡ 35 ∷ [] }
{
    line.starts_with(b"#")
}

// What agrees is proved to be what the definitions give, and nothing but a comment is passed over.
pub fn judge(line: &[u8]) -> Result<Verdict, Malformed>
    ensures { IfOk result (Told line.now) }
{
    if is_comment(line) {
        return Ok(Verdict::Comment);
    }
    let mut numbers = [0u32; NUMBERS];
    let n = parse(line, &mut numbers)?;
    judge_numbers(&numbers[..n])
}
