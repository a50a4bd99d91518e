// Where a plain word ends, in words that are known to be plain (rule 2).
ghost use Rattle.std.specs.Prelude.{◌≤◌, length};
ghost use Rattle.pairs.specs.NextPlain.{Stretching, NextPlain};

// The space behind the plain word that stands at a position: what is no space there is a letter.
pub fn word_end(text: &[u8], from: usize) -> usize
    requires { (length text.now ≤ 65535) × Stretching text.now from }
    ensures { NextPlain text.now from result }
{
    // By hand: a space is known to come, so that the text's end is not looked for, as `position` would.
    let mut at = from + 1;
    while text[at] != 0x20 {
        at += 1;
    }
    at
}
