// Where a line may be laid, and what it resumes there (refusal 5).
ghost use Rattle.std.specs.Prelude.{◌+◌, ◌-◌, ◌≤◌, ◌≡◌, true, length, Ok};
ghost use Rattle.utf8.specs.Decoding.{decode_all};
ghost use Rattle.utf8.specs.Places.{boundary};
ghost use Rattle.meaning.specs.Checks.{text_limit, check_utf8};
ghost use Rattle.meaning.specs.Edit.{chars_in};
ghost use Rattle.meaning.specs.Frames.{is_none, onward, rest_lies, stand_good};
ghost use Rattle.frames.specs.Resuming.{resumed_in};

// That the text is UTF-8 each function asks for by itself: a struct that says it would hold the lent bytes, and clauses cannot speak of them
// as plainly as of `text.now`.

use meaning::counts::Chars;
use meaning::line::Rest;
use steps::ending::nothing_left;
use steps::step::Resumed;
use utf8::text::{count_chars, count_long, is_boundary};

// Nothing is resumed.
fn is_none(rest: Rest) -> bool
    ensures { result ≡ is_none rest }
{
    (rest.end.0 == 0) & (rest.count.0 == 0)
}

// How many characters stand before a boundary.
pub fn chars_before(text: &[u8], start: usize) -> usize
    requires { (check_utf8 text.now ≡ Ok tt) × (boundary (decode_all text.now) start ≡ true) }
    ensures { result ≡ chars_in (decode_all text.now) start }
{
    if start == 0 {
        return 0;
    }
    count_long(&text[..start])
}

// How many characters a stretch between two boundaries has.
fn chars_between(text: &[u8], from: usize, to: usize) -> usize
    requires { (check_utf8 text.now ≡ Ok tt) × (boundary (decode_all text.now) from ≡ true) × (boundary (decode_all text.now) to ≡ true) × (from ≤ to) }
    ensures { result ≡ chars_in (onward (decode_all text.now) from) (to - from) }
{
    count_chars(&text[from..to])
}

// A rest that a line may resume there.
fn rest_lies(text: &[u8], start: u32, rest: Rest) -> bool
    requires { (check_utf8 text.now ≡ Ok tt) × (boundary (decode_all text.now) start ≡ true) }
    ensures { result ≡ rest_lies (decode_all text.now) start rest }
{
    let end = rest.end.0;
    if end <= start {
        return false;
    }
    if !is_boundary(text, end as usize) {
        return false;
    }
    rest.count.0 as usize <= chars_between(text, start as usize, end as usize)
}

// A start and a rest that a line may have.
pub fn stand_good(text: &[u8], start: u32, rest: Rest) -> bool
    requires { check_utf8 text.now ≡ Ok tt }
    ensures { result ≡ stand_good (decode_all text.now) start rest }
{
    if !is_boundary(text, start as usize) {
        return false;
    }
    if is_none(rest) {
        return true;
    }
    rest_lies(text, start, rest)
}

// What a line there resumes.
pub fn resumed_in(text: &[u8], start: u32, rest: Rest) -> Resumed
    requires { (check_utf8 text.now ≡ Ok tt) × (length text.now ≤ text_limit) × (stand_good (decode_all text.now) start rest ≡ true) }
    ensures { result ≡ resumed_in (decode_all text.now) start rest }
{
    if is_none(rest) {
        return nothing_left();
    }
    let chars = chars_between(text, start as usize, rest.end.0 as usize);
    Resumed {
        end: rest.end,
        chars: Chars(chars as u32),
        count: rest.count,
    }
}
