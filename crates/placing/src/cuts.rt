// A line that is the first part of a word wider than the box: where the part ends (rule 8).
ghost use Rattle.std.specs.Prelude.{◌-◌, ◌≤◌, ◌<◌, ◌≡◌, length};
ghost use Rattle.parser.specs.Lexing.{chars_from};
ghost use Rattle.parser.specs.Shorter.{Between};
ghost use Rattle.placing.specs.Plain.{FoundRow};
ghost use Rattle.placing.specs.LeftWords.{LeftWord};
ghost use Rattle.placing.specs.Leads.{lead_len};

use parser::scan::Scanned;

// How many bytes a character has, by the first of them.
fn lead_len(a: u8) -> usize
    ensures { result ≡ lead_len a }
{
    if a < 0x80 {
        return 1;
    }
    if a < 0xE0 {
        return 2;
    }
    if a < 0xF0 {
        return 3;
    }
    4
}

// Where so many characters from a position on end.
fn skip_chars(text: &[u8], from: usize, count: u32) -> usize
    requires { (length text.now ≤ 65535) × (count ≤ length (chars_from text.now from)) }
    ensures { Between text.now from result count }
{
    let mut at = from;
    for _passed in 0..count {
        at += lead_len(text[at]);
    }
    at
}

// Where the first characters of a stretch end. One of as many bytes as characters is of ASCII.
fn part_end(text: &[u8], at: usize, end: u32, chars: u32, most: u32) -> usize
    requires { (length text.now ≤ 65535) × Between text.now at end chars × (most ≤ chars) }
    ensures { Between text.now at result most }
{
    let bytes = end - at as u32;
    if bytes == chars {
        return at + most as usize;
    }
    skip_chars(text, at, most)
}

// The line at an offset in a box that holds so many characters, where more than these are left of a word: where the next line starts.
pub fn cut_row(text: &[u8], at: usize, word: Scanned, left: u32, most: u32) -> usize
    requires text_len_bound { (length text.now ≤ 65535) × (1 ≤ most) × (most < left) }
    requires left_word { LeftWord text.now at word.end.0 left word.weight.0 word.reach.0 }
    ensures found_row { FoundRow text.now at most most result most word.reach.0 }
    ensures left_word_2 { LeftWord text.now result word.end.0 (left - most) word.weight.0 word.reach.0 }
    ensures between { Between text.now at result most }
{
    part_end(text, at, word.end.0, left, most)
}
