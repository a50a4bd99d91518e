// One line of a text from any start: a public call (rule 10, refusal 1, refusal 2, refusal 3, refusal 4, refusal 5, refusal 8).
ghost use Rattle.std.specs.Prelude.{◌≤◌, ◌≡◌, length};
ghost use Rattle.utf8.specs.Decoding.{decode_all};
ghost use Rattle.meaning.specs.Table.{entry_numbers, of_entry, written};
ghost use Rattle.meaning.specs.Frames.{one_line};
ghost use Rattle.meaning.specs.Calls.{frame_answer, frame_entry};
ghost use Rattle.frames.specs.Framing.{Frameable, line_laid};

use crate::opening::check_open;
use crate::place::{chars_before, resumed_in, stand_good};
use meaning::answers::NextLine;
use meaning::counts::{Chars, Offset};
use meaning::line::Rest;
use meaning::refusals::Refusal;
use meaning::settings::Settings;
use meaning::sizes::ENTRY_NUMBERS;
use placing::entry::rest_in;
use rows::stand::lay_row;
use stands::stand::at_one;
use table::entries::write_entry;

// The line at a start that is good, written to the front of a slice that has room for it.
fn lay_here(s: Settings, text: &[u8], start: u32, rest: Rest, entry: &mut [u32]) -> NextLine
    requires { Frameable s text.now start rest × (entry_numbers ≤ length entry.old) }
    ensures value { result ≡ line_laid s text.now start rest }
    ensures after { entry.new ≡ written entry.old (of_entry (one_line s (decode_all text.now) start rest).entry) }
{
    let before = chars_before(text, start as usize);
    let held = resumed_in(text, start, rest);
    let stand = at_one(text, Offset(start), Chars(before as u32), held);
    let row = lay_row(text, s, stand);
    let e = row.entry;
    write_entry(entry, 0, e);
    let left = row.rest;
    let after = rest_in(left);
    NextLine {
        start: row.next,
        rest: after,
    }
}

// Its entry's numbers, where the next line starts and what that one resumes; or a refusal, of which none writes anything.
pub fn one_line(
    s: Settings,
    text: &[u8],
    start: u32,
    rest: Rest,
    entry: &mut [u32],
) -> Result<NextLine, Refusal>
    ensures value { result ≡ frame_answer s text.now start rest entry.old }
    ensures after { entry.new ≡ frame_entry s text.now start rest entry.old }
{
    check_open(s, text)?;
    if !stand_good(text, start, rest) {
        return Err(Refusal::BadLine(0));
    }
    if entry.len() / ENTRY_NUMBERS < 1 {
        return Err(Refusal::TooSmall(1));
    }
    Ok(lay_here(s, text, start, rest, entry))
}
