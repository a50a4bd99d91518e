// The rest that the first affected line resumes, which fits.
ghost use Rattle.std.specs.Prelude.{◌≤◌, ◌≡◌, true, length, Ok};
ghost use Rattle.utf8.specs.Decoding.{decode_all};
ghost use Rattle.meaning.specs.Checks.{text_limit, check_utf8};
ghost use Rattle.meaning.specs.Edit.{rest_fits};
ghost use Rattle.again.specs.HeldRest.{resumed_of};

use edits::fitting::{chars_before, rest_end};
use look::one_line::has_no_rest;
use meaning::counts::{Chars, Offset};
use meaning::line::Entry;
use steps::ending::nothing_left;
use steps::step::Resumed;

// The rest of an entry that fits.
pub fn held_of(part: &[u8], e: Entry) -> Resumed
    requires { (check_utf8 part.now ≡ Ok tt) × (rest_fits e (decode_all part.now) ≡ true) × (length part.now ≤ text_limit) }
    ensures { result ≡ resumed_of e (decode_all part.now) }
{
    if has_no_rest(e) {
        return nothing_left();
    }
    let end = rest_end(e);
    let chars = chars_before(part, end);
    Resumed {
        end: Offset(end as u32),
        chars: Chars(chars as u32),
        count: e.rest.count,
    }
}
