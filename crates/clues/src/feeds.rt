// Line feeds: the first one of a part of a buffer.
ghost use Rattle.std.specs.Prelude.{◌+◌, ◌≤◌, ◌<◌, ◌≡◌, true, length, take, drop};
ghost use Rattle.clues.specs.Feeds.{before_feed, Free};

// Is no byte of a stretch a line feed. All are looked at, with no branch, so that it is done many bytes at a time.
fn no_feed(s: &[u8], from: usize, to: usize) -> bool
    requires { (from ≤ to) × (to ≤ length s.now) }
    ensures { result ≡ true → Free s.now from to }
{
    let mut none = true;
    for i in from..to {
        none &= s[i] != b'\n';
    }
    none
}

// Blocks of so many bytes with no line feed are skipped, while there are any. By hand and with the size passed, as utf8 skips its blocks:
// there chunks_exact and take_while took two thirds more instructions.
fn skip_blocks(s: &[u8], from: usize, end: usize, block: usize) -> usize
    requires { (from ≤ end) × (end ≤ length s.now) × (0 < block) }
    ensures { (result ≤ end) × (result + before_feed (drop result (take end s.now)) ≡ from + before_feed (drop from (take end s.now))) }
{
    let mut at = from;
    while block <= end - at {
        let next = at + block;
        if !no_feed(s, at, next) {
            return at;
        }
        at = next;
    }
    at
}

// The place of the first line feed from a place up to another, or that other place if there is none.
pub fn find_feed(s: &[u8], from: usize, end: usize) -> usize
    requires { (from ≤ end) × (end ≤ length s.now) }
    ensures { result ≡ from + before_feed (drop from (take end s.now)) }
{
    let large = skip_blocks(s, from, end, 32);
    let small = skip_blocks(s, large, end, 8);
    for i in small..end {
        if s[i] == b'\n' {
            return i;
        }
    }
    end
}
