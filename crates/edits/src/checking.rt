// What laying again tests before anything is laid: refusals 1 to 6, in this order.
// Refusal 1, refusal 2, refusal 3, refusal 4, refusal 5, refusal 6.
// A table is lent with a count of lines beside it, as C lends it: it may be past the table, which refusal 5 answers; heights says at
// `height_of` why the pair stays behind that check.
ghost use Rattle.std.specs.Prelude.{◌≡◌, length, Ok};
ghost use Rattle.utf8.specs.Decoding.{decode_all};
ghost use Rattle.meaning.specs.Checks.{check_utf8};
ghost use Rattle.meaning.specs.Table.{entries_in};
ghost use Rattle.meaning.specs.WellFormed.{check_table};
ghost use Rattle.meaning.specs.Edit.{unaffected, check_whole};
ghost use Rattle.look.specs.Looking.{looked_over};
ghost use Rattle.edits.specs.Checking.{whole_of, ends_fit, length_fits, check_first, check_lent, check_before};

use crate::fitting::rest_fits;
use checks::settings::check_settings;
use checks::text::{check_length, check_text};
use look::well_formed::{look_over, text_length};
use meaning::counts::Offset;
use meaning::edit::Edit;
use meaning::line::Entry;
use meaning::refusals::Refusal;
use meaning::settings::Settings;
use meaning::sizes::TEXT_LIMIT;
use table::edited::edited_whole;
use table::entries::read_entry;
use utf8::text::is_boundary;

// Refusal 3 of the edited whole, where the old text has so many bytes.
fn whole_of(bytes: Offset, edit: Edit) -> Result<(), Refusal>
    ensures { result ≡ whole_of bytes.0 edit }
{
    match edited_whole(bytes, edit) {
        Some(whole) => check_length(whole),
        None => Ok(()),
    }
}

// The same from the table and the look over it: a table that is refused says nothing of a length.
fn check_whole(
    table: &[u32],
    lines: usize,
    edit: Edit,
    looked: Result<u64, Refusal>,
) -> Result<(), Refusal>
    requires { looked ≡ looked_over edit.from.0 (check_table lines table.now) (entries_in lines table.now) }
    ensures { result ≡ check_whole (check_table lines table.now) (entries_in lines table.now) edit }
{
    match looked {
        Ok(_) => whole_of(text_length(table, lines), edit),
        Err(_) => Ok(()),
    }
}

// Has a part of so many bytes what the edited whole has from an entry's start on.
fn length_fits(bytes: Offset, edit: Edit, e: Entry, length: usize) -> bool
    ensures { result ≡ length_fits bytes.0 edit e length }
{
    let start = e.start.0 as u64;
    edited_whole(bytes, edit).is_some_and(|whole| length as u64 == whole.saturating_sub(start))
}

// Are both ends of the inserted bytes boundaries in a part that stands from an entry's start on.
fn ends_fit(part: &[u8], edit: Edit, e: Entry) -> bool
    requires { check_utf8 part.now ≡ Ok tt }
    ensures { result ≡ ends_fit edit e (decode_all part.now) }
{
    let start = e.start.0 as u64;
    let from = edit.from.0 as u64;
    let front = from.saturating_sub(start);
    let end = (from + edit.inserted.0 as u64).saturating_sub(start);
    is_boundary(part, front as usize) & is_boundary(part, end as usize)
}

// Refusal 5 and refusal 6 of the first affected line, line k, which is answered.
fn check_first(
    part: &[u8],
    table: &[u32],
    lines: usize,
    edit: Edit,
    k: usize,
) -> Result<u64, Refusal>
    requires { (check_utf8 part.now ≡ Ok tt) × (check_table lines table.now ≡ Ok tt) × (k ≡ length (unaffected edit.from.0 (entries_in lines table.now))) }
    ensures { result ≡ looked_over edit.from.0 (check_first part.now table.now lines edit) (entries_in lines table.now) }
{
    if lines <= k {
        return Err(Refusal::BadEdit);
    }
    let e = read_entry(table, k);
    if !rest_fits(part, e) {
        return Err(Refusal::BadLine(k as u64));
    }
    if !length_fits(text_length(table, lines), edit, e, part.len()) {
        return Err(Refusal::BadEdit);
    }
    if !ends_fit(part, edit, e) {
        return Err(Refusal::BadEdit);
    }
    Ok(k as u64)
}

// Refusals 3 to 6, or the first affected line.
fn check_lent(part: &[u8], table: &[u32], lines: usize, edit: Edit) -> Result<u64, Refusal>
    ensures { result ≡ looked_over edit.from.0 (check_lent part.now table.now lines edit) (entries_in lines table.now) }
{
    if TEXT_LIMIT < part.len() {
        return Err(Refusal::TextTooLong(part.len() as u64));
    }
    let a = edit.from;
    let looked = look_over(table, lines, a);
    check_whole(table, lines, edit, looked)?;
    check_text(part)?;
    let k = looked?;
    check_first(part, table, lines, edit, k as usize)
}

// Refusals 1 to 6, or the first affected line.
pub fn check_before(
    s: Settings,
    part: &[u8],
    table: &[u32],
    lines: usize,
    edit: Edit,
) -> Result<u64, Refusal>
    ensures { result ≡ looked_over edit.from.0 (check_before s part.now table.now lines edit) (entries_in lines table.now) }
{
    check_settings(s)?;
    check_lent(part, table, lines, edit)
}
