// The index made, and made again after an edit (rule 11; refusal 1, refusal 2, refusal 5, refusal 8).
// A table is lent with a count of lines beside it, as C lends it: the count may be past the table, and refusal 5 answers that.
ghost use Rattle.std.specs.Prelude.{◌≡◌};
ghost use Rattle.meaning.specs.YIndex.{kept_before};
ghost use Rattle.meaning.specs.Calls.{check_indexing, index_answer, index_from, index_after, index_again_after};

use heights::height::check_height;
use heights::ys::write_ys;
use meaning::refusals::Refusal;
use meaning::settings::Settings;

fn check_indexing(s: Settings, table: &[u32], lines: usize, room: usize) -> Result<(), Refusal>
    ensures { result ≡ check_indexing s table.now lines room }
{
    check_height(s, table, lines)?;
    if room < lines {
        return Err(Refusal::TooSmall(lines as u64));
    }
    Ok(())
}

// How many entries are kept where this line is the first affected one.
fn kept_before(s: Settings, first: usize) -> usize
    ensures { result ≡ kept_before s first }
{
    if 0 < s.vertical {
        return 0;
    }
    first
}

// The index, but for the entries of the first lines, of which so many are kept.
fn make_from(
    s: Settings,
    table: &[u32],
    lines: usize,
    kept: usize,
    index: &mut [i32],
) -> Result<u64, Refusal>
    ensures value { result ≡ index_answer s table.now lines index.old }
    ensures index_after { index.new ≡ index_from kept s table.now lines index.old }
{
    check_indexing(s, table, lines, index.len())?;
    write_ys(s, table, lines, kept, index);
    Ok(lines as u64)
}

// The y of every line.
pub fn make_index(
    s: Settings,
    table: &[u32],
    lines: usize,
    index: &mut [i32],
) -> Result<u64, Refusal>
    ensures value { result ≡ index_answer s table.now lines index.old }
    ensures index_after { index.new ≡ index_after s table.now lines index.old }
{
    make_from(s, table, lines, 0, index)
}

// The same after an edit, of which this is the first affected line.
pub fn make_index_again(
    s: Settings,
    table: &[u32],
    lines: usize,
    first: usize,
    index: &mut [i32],
) -> Result<u64, Refusal>
    ensures value { result ≡ index_answer s table.now lines index.old }
    ensures index_after { index.new ≡ index_again_after s table.now lines first index.old }
{
    make_from(s, table, lines, kept_before(s, first), index)
}
