// The figures of one text: its lines counted one by one, or its refusal (refusal 3, refusal 4).
ghost use Rattle.std.specs.Prelude.{◌+◌, ◌≤◌, ◌≡◌, [], Err};
ghost use Rattle.meaning.specs.Checks.{text_limit};
ghost use Rattle.meaning.specs.Month.{figures_by};
ghost use Rattle.month_figures.specs.Tallies.{no_lines, with_line, tally_figures};

use checks::refusals::number;
use meaning::figures::Figures;
use meaning::refusals::Refusal;

// How a line ends that is broken: by LineBreak.
const LINE_BREAK: u32 = 3;

// The refusals that a text by itself can have.
const TEXT_TOO_LONG: u32 = 3;

const NOT_UTF8: u32 = 4;

// The lines that are counted so far: how many, how many of them are broken, and the characters that they dropped.
#[derive(Clone, Copy)]
pub struct Tally {
    pub lines: u64,
    pub broken: u64,
    pub dropped: u64,
}

pub fn no_lines() -> Tally
    ensures { result ≡ no_lines }
{
    Tally {
        lines: 0,
        broken: 0,
        dropped: 0,
    }
}

// One line more, which ends so and dropped so many characters.
pub fn with_line(t: Tally, ending: u32, dropped: u32) -> Tally
    requires { (t.lines ≤ text_limit) × (t.broken ≤ text_limit + 1) × (t.dropped ≤ text_limit) }
    ensures { result ≡ with_line t ending dropped }
{
    Tally {
        lines: t.lines + 1,
        broken: t.broken + u64::from(ending == LINE_BREAK),
        dropped: t.dropped + u64::from(dropped),
    }
}

// The figures of a text that has these lines.
pub fn tally_figures(t: Tally) -> Figures
    ensures { result ≡ tally_figures t }
{
    Figures {
        texts: 1,
        lines: t.lines,
        broken: t.broken,
        dropped: t.dropped,
        long: 0,
        invalid: 0,
        most: t.lines,
    }
}

// Of a text that is refused. Its check gives 3 or 4, and no other number.
pub fn refused_figures(refusal: Refusal) -> Figures
    ensures { result ≡ figures_by (Err refusal) [] }
{
    let n = number(refusal);
    Figures {
        texts: 1,
        lines: 0,
        broken: 0,
        dropped: 0,
        long: u64::from(n == TEXT_TOO_LONG),
        invalid: u64::from(n == NOT_UTF8),
        most: 0,
    }
}
