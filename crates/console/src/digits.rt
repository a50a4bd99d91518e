// A decimal number in a word.
ghost use Rattle.std.specs.Prelude.{◌≡◌};
ghost use Rattle.console.specs.Digits.{decimal_in};

// The number that the bytes of a word write, all of them digits, if it is at most `most`. `parse` would take a sign too.
pub fn decimal_in(word: &[u8], most: u32) -> Option<u32>
    ensures { result ≡ decimal_in most word.now }
{
    if word.is_empty() {
        return None;
    }
    let mut n: u64 = 0;
    for byte in word {
        if !byte.is_ascii_digit() {
            return None;
        }
        n = 10 * n + u64::from(*byte - b'0');
        if u64::from(most) < n {
            return None;
        }
    }
    Some(n as u32)
}
