// A line as the loops over lines have it (rule 10).
use meaning::counts::{Chars, Offset};
use meaning::line::Entry;
use steps::step::Resumed;

// A line that is laid: its entry, whether it ends the text, where the next line starts, how many characters it took up to there
// and what the next one resumes.
#[derive(Clone, Copy)]
pub struct LaidRow {
    pub entry: Entry,
    // No `Option` around what follows: one line alone is answered with both, be it the last or not.
    pub last: bool,
    pub next: Offset,
    pub chars: Chars,
    pub rest: Resumed,
}
