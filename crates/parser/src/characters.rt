// What a character does in a text (rule 1 and rule 2), by its number.
ghost use Rattle.std.specs.Prelude.{◌≡◌, ◌<◌};
ghost use Rattle.meaning.specs.Characters.{in_word, in_run};
ghost use Rattle.parser.specs.Scanning.{space_of};

use crate::glue::is_glue;
use utf8::white_space::is_white_space;

// How many spaces a character of a space run counts.
pub fn space_of(c: u32) -> u32
    ensures { result ≡ space_of c }
{
    if c == 0x200B { 0 } else { 1 }
}

// Below U+0080 all but the space and what lies from tab to CR are of words.
fn ascii_in_word(c: u32) -> bool
    requires { c < 0x80 }
    ensures { result ≡ in_word c }
{
    if 0x20 < c {
        return true;
    }
    if c == 0x20 {
        return false;
    }
    if 0x0D < c {
        return true;
    }
    c < 0x09
}

// Does a word go on with a character. White space is asked for only from U+0080 on.
pub fn in_word(c: u32) -> bool
    ensures { result ≡ in_word c }
{
    if c < 0x80 {
        return ascii_in_word(c);
    }
    if c == 0x00AD {
        return false;
    }
    if c == 0x200B {
        return false;
    }
    if is_glue(c) {
        return true;
    }
    !is_white_space(c)
}

// Below U+0080 the space, U+000B and U+000C are of space runs.
fn ascii_in_run(c: u32) -> bool
    requires { c < 0x80 }
    ensures { result ≡ in_run c }
{
    if c == 0x20 {
        return true;
    }
    if c < 0x0B {
        return false;
    }
    c < 0x0D
}

// Does a space run go on with a character.
pub fn in_run(c: u32) -> bool
    ensures { result ≡ in_run c }
{
    if c < 0x80 {
        return ascii_in_run(c);
    }
    if c == 0x200B {
        return true;
    }
    if is_glue(c) {
        return false;
    }
    is_white_space(c)
}
