// Rule 11: what the ends of lines add to the height.
// A table goes with the number of its lines beside it: heights says at `height_of` why.
ghost use Rattle.std.specs.Prelude.{◌*◌, ◌≤◌, ◌≡◌, length};
ghost use Rattle.meaning.specs.Table.{entry_numbers, entries_in};
ghost use Rattle.meaning.specs.Height.{end_adds, added_before};
ghost use Rattle.heights.specs.GoodSettings.{Measures};
ghost use Rattle.heights.specs.Heights.{not_counted};

use meaning::counts::Offset;
use meaning::settings::Settings;
use meaning::sizes::{ENDING, ENTRY_NUMBERS};

// What a line's end adds.
pub fn end_adds(s: Settings, ending: u32) -> u32
    requires { Measures s }
    ensures { result ≡ end_adds s ending }
{
    let spacing = s.spacing.0;
    if ending == 0 {
        return spacing + s.paragraph.0;
    }
    if ending == 3 {
        return spacing;
    }
    0
}

// What the ends of the first k lines add.
pub fn added_before(s: Settings, table: &[u32], k: usize) -> u32
    requires { Measures s × (k ≤ 65536) × (entry_numbers * k ≤ length table.now) }
    ensures { result ≡ added_before s k (entries_in k table.now) }
{
    let mut sum: u32 = 0;
    for i in 0..k {
        sum += end_adds(s, table[ENTRY_NUMBERS * i + ENDING]);
    }
    sum
}

// Of that, what the height leaves out: a LineBreak before a last line that starts at the text's end.
pub fn not_counted(s: Settings, table: &[u32], lines: usize, bytes: Offset) -> u32
    requires { entry_numbers * lines ≤ length table.now }
    ensures { result ≡ not_counted s bytes.0 (entries_in lines table.now) }
{
    if lines < 2 {
        return 0;
    }
    let at = ENTRY_NUMBERS * (lines - 2);
    if table[at + ENDING] != 3 {
        return 0;
    }
    if table[at + ENTRY_NUMBERS] != bytes.0 {
        return 0;
    }
    s.spacing.0
}
