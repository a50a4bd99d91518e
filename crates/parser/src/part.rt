// The first characters of a stretch of a text (rule 2).
ghost use Rattle.std.specs.Prelude.{◌≡◌, ◌≤◌, length};
ghost use Rattle.parser.specs.Lexing.{chars_from, part_of};
ghost use Rattle.parser.specs.Scanning.{part_at};

use crate::glue::glue_of;
use crate::letters::letter_len;
use meaning::counts::{Chars, Offset};
use utf8::sequence::{Decoded, decode};

// Where they end, and how many of them glue.
#[derive(Clone, Copy)]
pub struct Part {
    pub end: Offset,
    pub glues: Chars,
}

fn part_at(end: usize, glues: u32) -> Part
    requires { end ≤ 65535 }
    ensures { result ≡ part_at end glues }
{
    Part {
        end: Offset(end as u32),
        glues: Chars(glues),
    }
}

// The first k characters from an offset on, or as many as there are.
pub fn part_of(text: &[u8], at: usize, k: u32) -> Part
    requires { (length text.now ≤ 65535) × (at ≤ 65535) }
    ensures { result ≡ part_of at k (chars_from text.now at) }
{
    let mut end = at;
    let mut glues: u32 = 0;
    for _i in 0..k {
        if let Some(letter) = letter_len(text, end) {
            end += letter;
            continue;
        }
        match decode(text, end) {
            Decoded::Char { cp, len } => {
                glues += glue_of(cp);
                end += len as usize;
            }
            Decoded::Bad | Decoded::End => {
                return part_at(end, glues);
            }
        }
    }
    part_at(end, glues)
}
