// Texts that are told to be UTF-8 as a whole, many bytes at a time: each byte is compared with the two before it, with no branch.
// Refusal 4.
ghost use Rattle.std.specs.Prelude.{◌+◌, ◌≤◌, ◌≡◌, true, ◌&&◌, length};
ghost use Rattle.utf8.specs.Ascii.{Passed};
ghost use Rattle.utf8.specs.Whole.{told, follow, Follows};

// Not told are C0 and C1, the leads that ask more of the next byte than to continue (E0 and ED), and all from F0 on.
fn is_told(c: u8) -> bool
    ensures { result ≡ told c }
{
    (c < 0xC0) | ((0xC2 <= c) & (c < 0xF0) & (c != 0xE0) & (c != 0xED))
}

// Is a byte right behind two others: it continues a sequence exactly if the one before leads two bytes or more, or the other three.
fn follows(a: u8, b: u8, c: u8) -> bool
    ensures { result ≡ follow a b c }
{
    let asked = (0xC0 <= b) | (0xE0 <= a);
    let cont = (0x80 <= c) & (c <= 0xBF);
    ((asked & cont) | !(asked | cont)) & is_told(c)
}

// Is every byte right, from the third of a stretch on.
fn all_follow(text: &[u8], from: usize, to: usize) -> bool
    requires { (from ≤ to) × (to + 2 ≤ length text.now) }
    ensures { result ≡ true → Follows text.now from to }
{
    let mut all = true;
    for i in from..to {
        all = all & follows(text[i], text[i + 1], text[i + 2]);
    }
    all
}

// The same in blocks of 16. The last block begins at a position of its own, and may look at bytes once more.
fn blocks_follow(text: &[u8], from: usize, last: usize) -> bool
    requires { (from ≤ last) × (last + 18 ≤ length text.now) }
    ensures { result ≡ true → Follows text.now from (last + 16) }
{
    // By hand: step_by and all take a third more instructions here.
    let mut at = from;
    while at < last {
        let next = at + 16;
        if !all_follow(text, at, next) {
            return false;
        }
        at = next;
    }
    all_follow(text, last, last + 16)
}

// Are the first two bytes right, behind nothing.
fn starts_so(a: u8, b: u8) -> bool
    ensures { result ≡ follow 0 0 a && follow 0 a b }
{
    follows(0, 0, a) & follows(0, a, b)
}

// Does the text end right behind two bytes.
fn ends_so(a: u8, b: u8) -> bool
    ensures { result ≡ follow a b 0 && follow b 0 0 }
{
    follows(a, b, 0) & follows(b, 0, 0)
}

// Is all from a position on UTF-8, in a text that has a block left there.
pub fn all_told(text: &[u8], from: usize) -> bool
    requires { from ≤ length text.now }
    ensures { result ≡ true → Passed text.now from (length text.now) }
{
    let left = text.len() - from;
    if left < 18 {
        return false;
    }
    let last = text.len() - 18;
    if !starts_so(text[from], text[from + 1]) {
        return false;
    }
    if !ends_so(text[last + 16], text[last + 17]) {
        return false;
    }
    blocks_follow(text, from, last)
}
