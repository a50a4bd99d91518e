// One sequence of bytes: which scalar value it stands for (refusal 4).
ghost use Rattle.std.specs.Prelude.{◌≡◌, [], ◌∷◌};
ghost use Rattle.basis.specs.Order.{within};
ghost use Rattle.utf8.specs.Decoding.{seq_len, char_of, decode_at};

// What stands at a position of a text: a scalar value and how many bytes it takes, bytes that are no sequence, or nothing.
// No `Option` and no `Result`: bytes that are no sequence refuse a text, and the end of it does not.
#[derive(Clone, Copy)]
pub enum Decoded {
    Char { cp: u32, len: u32 },
    Bad,
    End,
}

// How many bytes the sequence has that a byte leads: the byte's run of one bits says it.
pub fn seq_len(lead: u8) -> u32
    ensures { result ≡ seq_len lead }
{
    let ones = u8::leading_zeros(!lead);
    if ones == 0 {
        return 1;
    }
    if ones == 1 {
        return 0;
    }
    if 4 < ones {
        return 0;
    }
    ones
}

fn between(lo: u8, hi: u8, b: u8) -> bool
    ensures { result ≡ within lo hi b }
{
    lo <= b && b <= hi
}

// Does a byte continue a sequence.
pub(crate) fn is_cont(b: u8) -> bool
    ensures { result ≡ within 0x80 0xBF b }
{
    between(0x80, 0xBF, b)
}

// Two bytes. The leads C0 and C1 would stand for what one byte says.
fn two(a: u8, b: u8) -> Decoded
    ensures { result ≡ char_of (a ∷ b ∷ []) }
{
    if !between(0xC2, 0xDF, a) {
        return Decoded::Bad;
    }
    if !is_cont(b) {
        return Decoded::Bad;
    }
    let cp = (a as u32) % 32 * 64 + (b as u32) % 64;
    Decoded::Char { cp, len: 2 }
}

// Three bytes. What fewer bytes say, and the surrogates, are refused.
fn three(a: u8, b: u8, c: u8) -> Decoded
    ensures { result ≡ char_of (a ∷ b ∷ c ∷ []) }
{
    if !between(0xE0, 0xEF, a) {
        return Decoded::Bad;
    }
    if !is_cont(b) {
        return Decoded::Bad;
    }
    if !is_cont(c) {
        return Decoded::Bad;
    }
    let cp = ((a as u32) % 16 * 64 + (b as u32) % 64) * 64 + (c as u32) % 64;
    if cp < 0x800 {
        return Decoded::Bad;
    }
    if cp < 0xD800 {
        return Decoded::Char { cp, len: 3 };
    }
    if cp < 0xE000 {
        return Decoded::Bad;
    }
    Decoded::Char { cp, len: 3 }
}

// Four bytes. What fewer bytes say, and what lies past 10FFFF, are refused.
fn four(a: u8, b: u8, c: u8, d: u8) -> Decoded
    ensures { result ≡ char_of (a ∷ b ∷ c ∷ d ∷ []) }
{
    if !between(0xF0, 0xF4, a) {
        return Decoded::Bad;
    }
    if !is_cont(b) {
        return Decoded::Bad;
    }
    if !is_cont(c) {
        return Decoded::Bad;
    }
    if !is_cont(d) {
        return Decoded::Bad;
    }
    let cp = (((a as u32) % 8 * 64 + (b as u32) % 64) * 64 + (c as u32) % 64) * 64
        + (d as u32) % 64;
    if cp < 0x10000 {
        return Decoded::Bad;
    }
    if 0x10FFFF < cp {
        return Decoded::Bad;
    }
    Decoded::Char { cp, len: 4 }
}

// The sequence at a position of a text.
pub fn decode(text: &[u8], at: usize) -> Decoded
    ensures { result ≡ decode_at text.now at }
{
    if text.len() <= at {
        return Decoded::End;
    }
    let a = text[at];
    let n = seq_len(a);
    if text.len() - at < n as usize {
        return Decoded::Bad;
    }
    if n == 1 {
        return Decoded::Char {
            cp: a as u32,
            len: 1,
        };
    }
    if n == 2 {
        return two(a, text[at + 1]);
    }
    if n == 3 {
        return three(a, text[at + 1], text[at + 2]);
    }
    if n == 4 {
        return four(a, text[at + 1], text[at + 2], text[at + 3]);
    }
    Decoded::Bad
}
