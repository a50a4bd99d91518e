// The property White_Space of the Unicode Standard (PropList.txt) (rule 1).
ghost use Rattle.std.specs.Prelude.{◌≡◌};
ghost use Rattle.utf8.specs.WhiteSpace.{is_white};

// Is a code point white space: is it in one of the property's ten ranges, here in its order. (PropList.txt has a line each for
// U+2028 and U+2029, whose categories differ.) Most code points are answered before: they lie past the last range, or in the
// wide gap between the fourth and the fifth.
pub fn is_white_space(c: u32) -> bool
    ensures { result ≡ is_white c }
{
    if 0x3000 < c {
        return false;
    }
    if (0x00A0 < c) & (c < 0x1680) {
        return false;
    }
    match c {
        0x0009..=0x000D
        | 0x0020
        | 0x0085
        | 0x00A0
        | 0x1680
        | 0x2000..=0x200A
        | 0x2028..=0x2029
        | 0x202F
        | 0x205F
        | 0x3000 => true,
        _ => false,
    }
}
