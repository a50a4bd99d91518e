// A tab, a soft hyphen and a zero width space, told by their bytes: each is a token by itself, and no word goes on with one (rule 2).
ghost use Rattle.std.specs.Prelude.{◌≡◌, true, IfSome};
ghost use Rattle.parser.specs.Marks.{zero_width, mark_kind, Mark, mark_len};

use meaning::tokens::TokenKind;

// U+0009, U+00AD and U+200B.
#[derive(Clone, Copy)]
pub enum MarkChar {
    Tab,
    SoftHyphen,
    ZeroWidth,
}

// How many bytes it has: a length, which is added to offsets, and no number of its kind.
pub fn mark_len(mark: MarkChar) -> usize
    ensures { result ≡ mark_len mark }
{
    match mark {
        MarkChar::Tab => 1,
        MarkChar::SoftHyphen => 2,
        MarkChar::ZeroWidth => 3,
    }
}

// The kind of the token that it is.
impl From<MarkChar> for TokenKind {
    ghost from_gives = { λ mark kind. kind ≡ mark_kind (mark_len mark) };

    fn from(mark: MarkChar) -> TokenKind {
        match mark {
            MarkChar::Tab => TokenKind::Tab,
            MarkChar::SoftHyphen => TokenKind::Break,
            MarkChar::ZeroWidth => TokenKind::Whitespace,
        }
    }
}

// U+200B.
fn is_zero_width(a: u8, b: u8, c: u8) -> bool
    ensures { result ≡ zero_width a b c }
{
    (a == 0xE2) & (b == 0x80) & (c == 0x8B)
}

// The one of the three that stands at a position.
pub fn mark_at(text: &[u8], at: usize) -> Option<MarkChar>
    ensures { IfSome result (λ m. Mark text.now at (mark_len m)) }
{
    if text.len() <= at {
        return None;
    }
    let a = text[at];
    if a == 0x09 {
        return Some(MarkChar::Tab);
    }
    if a < 0xC2 {
        return None;
    }
    let left = text.len() - at;
    if left < 2 {
        return None;
    }
    let b = text[at + 1];
    if a == 0xC2 {
        if b == 0xAD {
            return Some(MarkChar::SoftHyphen);
        }
        return None;
    }
    if left < 3 {
        return None;
    }
    if is_zero_width(a, b, text[at + 2]) {
        return Some(MarkChar::ZeroWidth);
    }
    None
}

// Does a soft hyphen stand at a position.
pub fn hyphen_at(text: &[u8], at: usize) -> bool
    ensures { result ≡ true → Mark text.now at 2 }
{
    matches!(mark_at(text, at), Some(MarkChar::SoftHyphen))
}

// Does a zero width space.
pub fn zero_at(text: &[u8], at: usize) -> bool
    ensures { result ≡ true → Mark text.now at 3 }
{
    matches!(mark_at(text, at), Some(MarkChar::ZeroWidth))
}
