// Stretches of ASCII letters with single spaces between them, looked at many bytes at a time (rule 2).
ghost use Rattle.std.specs.Prelude.{◌+◌, ◌≤◌, ◌<◌, ◌≡◌, true, length};
ghost use Rattle.pairs.specs.Stretches.{smooth, Smooth};

// A letter, or a space that stands behind none.
fn is_smooth(before: u8, b: u8) -> bool
    ensures { result ≡ smooth before b }
{
    (0x20 <= b) & (b < 0x80) & ((before != 0x20) | (b != 0x20))
}

// Is every byte of a stretch so, behind the byte before it. All are looked at, with no branch.
fn all_smooth(text: &[u8], from: usize, to: usize) -> bool
    requires { (1 ≤ from) × (from ≤ to) × (to ≤ length text.now) }
    ensures { result ≡ true → Smooth text.now from to }
{
    let mut all = true;
    for i in from..to {
        all = all & is_smooth(text[i - 1], text[i]);
    }
    all
}

// The same of a stretch that is no shorter than a block: block after block, the last one up to its end.
fn smooth_by(text: &[u8], from: usize, to: usize, block: usize) -> bool
    requires { (1 ≤ from) × (0 < block) × (from + block ≤ to) × (to ≤ length text.now) }
    ensures { result ≡ true → Smooth text.now from to }
{
    let last = to - block;
    // No `for`: the last block begins where it still ends with the stretch, and not where the one before it ended.
    let mut at = from;
    loop {
        if !all_smooth(text, at, at + block) {
            return false;
        }
        if at == last {
            return true;
        }
        at = last.min(at + block);
    }
}

// The same of any stretch.
pub fn smooth_to(text: &[u8], from: usize, to: usize) -> bool
    requires { (1 ≤ from) × (from ≤ to) × (to ≤ length text.now) }
    ensures { result ≡ true → Smooth text.now from to }
{
    if 16 <= to - from {
        return smooth_by(text, from, to, 16);
    }
    if 8 <= to - from {
        return smooth_by(text, from, to, 8);
    }
    all_smooth(text, from, to)
}
