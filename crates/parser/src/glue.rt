// Which characters glue, by their numbers and by their bytes: said here alone (rule 2, rule 8).
// A character that `is_glue` knows and `glue_len` does not tell is decoded, and glues too: telling it by its bytes is only faster.
// What glues is no space: `is_long_space` of pair.rt must not tell it.
ghost use Rattle.std.specs.Prelude.{◌≡◌, IfSome};
ghost use Rattle.meaning.specs.Characters.{glue};
ghost use Rattle.parser.specs.Scanning.{glue_of};
ghost use Rattle.parser.specs.Letters.{long_glue, Glues};

// Does a character hold a word together: U+00A0, U+2007 and U+202F do.
pub fn is_glue(c: u32) -> bool
    ensures { result ≡ glue c }
{
    (c == 0x00A0) | (c == 0x2007) | (c == 0x202F)
}

// How many of one character glue.
pub fn glue_of(c: u32) -> u32
    ensures { result ≡ glue_of c }
{
    if is_glue(c) { 1 } else { 0 }
}

// U+2007 and U+202F.
fn is_long_glue(a: u8, b: u8, c: u8) -> bool
    ensures { result ≡ long_glue a b c }
{
    (a == 0xE2) & (b == 0x80) & ((c == 0x87) | (c == 0xAF))
}

// How many bytes the gluing character has that stands at a position, where it is told so.
// What is of ASCII is told from it in one test.
pub fn glue_len(text: &[u8], at: usize) -> Option<usize>
    ensures { IfSome result (λ n. Glues text.now at n) }
{
    if text.len() <= at {
        return None;
    }
    let a = text[at];
    if a < 0xC2 {
        return None;
    }
    let left = text.len() - at;
    if left < 2 {
        return None;
    }
    let b = text[at + 1];
    if a == 0xC2 {
        if b == 0xA0 {
            return Some(2);
        }
        return None;
    }
    if left < 3 {
        return None;
    }
    if is_long_glue(a, b, text[at + 2]) {
        return Some(3);
    }
    None
}
