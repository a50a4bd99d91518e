// Laying a text again after an edit: a public call.
// A table is lent with a count of lines beside it, as C lends it: the count may be past the table, and refusal 5 answers that.
ghost use Rattle.std.specs.Prelude.{◌≡◌, length, Ok};
ghost use Rattle.meaning.specs.Table.{entries_in};
ghost use Rattle.meaning.specs.Edit.{unaffected};
ghost use Rattle.meaning.specs.Calls.{relay_answer, relay_table};
ghost use Rattle.edits.specs.Checking.{check_before};

use crate::rest::held_of;
use crate::stop::{count_before, find_stop};
use crate::writing::write_again;
use edits::checking::check_before;
use meaning::answers::Relaid;
use meaning::edit::Edit;
use meaning::refusals::Refusal;
use meaning::settings::Settings;
use meaning::sizes::ENTRY_NUMBERS;
use stands::stand::at_front;
use table::edited::Shift;
use table::entries::read_entry;
use table::moving::move_lines;

// Refusal 8; else the lines that are kept are moved to where they stand now, and the lines laid, from the first affected one on, line k,
// are written before them.
fn lay_lines(
    s: Settings,
    part: &[u8],
    table: &mut [u32],
    lines: usize,
    edit: Edit,
    k: usize,
) -> Result<Relaid, Refusal>
    requires { (check_before s part.now table.old lines edit ≡ Ok tt) × (k ≡ length (unaffected edit.from.0 (entries_in lines table.old))) }
    ensures value { result ≡ relay_answer s part.now table.old lines edit }
    ensures table_after { table.new ≡ relay_table s part.now table.old lines edit }
{
    let e = read_entry(table, k);
    let front = at_front(part, e.before, held_of(part, e));
    let base = e.start;
    let found = find_stop(part, s, table, lines, k, base, edit, front);
    let left = lines - found.kept;
    let to = k + found.laid;
    let after = to + left;
    if table.len() / ENTRY_NUMBERS < after {
        return Err(Refusal::TooSmall(after as u64));
    }
    let shift = Shift {
        edit,
        from: count_before(table, lines, found.kept),
        to: found.before,
    };
    move_lines(table, found.kept, to, left, shift);
    write_again(part, s, table, base, k, found.laid, front);
    Ok(Relaid {
        lines: after as u64,
        laid: found.laid as u64,
    })
}

// Refusals 1 to 6 and 8 in this order (7 never arises), of which none writes anything; else the lines laid from the first affected
// one on, and behind them the old lines that laying again meets, moved.
pub fn lay_again(
    s: Settings,
    part: &[u8],
    table: &mut [u32],
    lines: usize,
    edit: Edit,
) -> Result<Relaid, Refusal>
    ensures value { result ≡ relay_answer s part.now table.old lines edit }
    ensures table_after { table.new ≡ relay_table s part.now table.old lines edit }
{
    let first = check_before(s, part, table, lines, edit)?;
    lay_lines(s, part, table, lines, edit, first as usize)
}
