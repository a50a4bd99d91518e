// The rest that the first affected line resumes: refusal 5 of it. That the part is UTF-8 is a clause and no `&str`: that would be checked
// once more, and all definitions read bytes.
ghost use Rattle.std.specs.Prelude.{◌≡◌, true, Ok};
ghost use Rattle.utf8.specs.Decoding.{decode_all};
ghost use Rattle.utf8.specs.Places.{boundary};
ghost use Rattle.meaning.specs.Checks.{check_utf8};
ghost use Rattle.meaning.specs.Edit.{chars_in, rest_fits};
ghost use Rattle.edits.specs.RestFits.{rest_end};

use look::one_line::has_no_rest;
use meaning::line::Entry;
use utf8::text::{count_chars, is_boundary};

// Where an entry's rest ends in a part that stands from the entry's start on.
pub fn rest_end(e: Entry) -> usize
    ensures { result ≡ rest_end e }
{
    e.rest.end.0.saturating_sub(e.start.0) as usize
}

// How many characters there are up to a boundary.
pub fn chars_before(part: &[u8], n: usize) -> usize
    requires { (check_utf8 part.now ≡ Ok tt) × (boundary (decode_all part.now) n ≡ true) }
    ensures { result ≡ chars_in (decode_all part.now) n }
{
    count_chars(&part[..n])
}

// Does an entry's rest end at a character boundary of the part, and count no more than the characters up to there.
pub fn rest_fits(part: &[u8], e: Entry) -> bool
    requires { check_utf8 part.now ≡ Ok tt }
    ensures { result ≡ rest_fits e (decode_all part.now) }
{
    if has_no_rest(e) {
        return true;
    }
    let end = rest_end(e);
    if !is_boundary(part, end) {
        return false;
    }
    e.rest.count.0 as usize <= chars_before(part, end)
}
