// How many characters a line took, where no look at the line has counted them (rule 12).
ghost use Rattle.std.specs.Prelude.{◌≤◌, length};
ghost use Rattle.placing.specs.Taken.{Stretch, Taken};

use meaning::counts::{Chars, Offset};
use utf8::text::count_chars;

// The characters from an offset up to another, at which one ends.
pub fn chars_to(text: &[u8], at: usize, next: Offset) -> Chars
    requires { (length text.now ≤ 65535) × (at ≤ length text.now) × Stretch text.now at next.0 }
    ensures { Taken text.now at next.0 result.0 }
{
    let end = next.0 as usize;
    let n = count_chars(&text[at..end]);
    let count = n as u32;
    Chars(count)
}
