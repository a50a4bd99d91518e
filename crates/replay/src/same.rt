// The lines that were laid, compared with the recorded ones.
ghost use Rattle.std.specs.Prelude.{◌*◌, ◌≤◌, ◌≡◌, length};
ghost use Rattle.meaning.specs.Table.{entry_numbers};
ghost use Rattle.replay.specs.Same.{equal, eights};

use crate::shape::RECORDED;
use meaning::sizes::ENTRY_NUMBERS;

// Whether the first eight numbers of each of n lines are the recorded ones.
pub fn same_lines(table: &[u32], n: usize, recorded: &[u32]) -> bool
    requires { entry_numbers * n ≤ length table.now }
    ensures { result ≡ equal (eights n table.now) recorded.now }
{
    if recorded.len() != RECORDED * n {
        return false;
    }
    for k in 0..n {
        let at = ENTRY_NUMBERS * k;
        let from = RECORDED * k;
        if table[at..at + RECORDED] != recorded[from..from + RECORDED] {
            return false;
        }
    }
    true
}
