// An edit of a text of so many bytes: how long the text is then, and where an offset behind the edit comes to stand.
// Refusal 3, refusal 6, laying again.
ghost use Rattle.std.specs.Prelude.{◌+◌, ◌-◌, ◌≤◌, ◌≡◌};
ghost use Rattle.meaning.specs.Edit.{moved};
ghost use Rattle.table.specs.EditAlone.{edited_whole};
ghost use Rattle.table.specs.Moving.{MovableEdit, MovableOffset, MovableShift, MovableCount};

use meaning::counts::{Chars, Offset};
use meaning::edit::Edit;

// How the old lines that follow an edit are moved: by that edit, and where there were `from` characters before the first of
// them there are now `to`. That it wraps nothing is a clause, and no ghost field: definitions make shifts of any numbers (`behind` in
// `again`), and each would have to bring the proof.
#[derive(Clone, Copy)]
pub struct Shift {
    pub edit: Edit,
    pub from: Chars,
    pub to: Chars,
}

// The length of the edited whole. 32-bit numbers are added in 64 bits, so that nothing wraps.
pub fn whole_length(bytes: Offset, edit: Edit) -> u64
    requires { (edit.from.0 ≤ edit.to.0) × (edit.to.0 ≤ bytes.0) }
    ensures { result ≡ bytes.0 + edit.inserted.0 - (edit.to.0 - edit.from.0) }
{
    let replaced = edit.to.0 - edit.from.0;
    bytes.0 as u64 + edit.inserted.0 as u64 - replaced as u64
}

// The same of any edit: a <= b <= length is what makes it one of this text.
pub fn edited_whole(bytes: Offset, edit: Edit) -> Option<u64>
    ensures { result ≡ edited_whole bytes.0 edit }
{
    if edit.to.0 < edit.from.0 {
        return None;
    }
    if bytes.0 < edit.to.0 {
        return None;
    }
    Some(whole_length(bytes, edit))
}

// An offset behind the replaced bytes, moved by the change of length. Any edit and any number will do.
pub fn moved_to(edit: Edit, x: u32) -> u64
    ensures { result ≡ moved edit x }
{
    let replaced = edit.to.0.saturating_sub(edit.from.0);
    (x as u64 + edit.inserted.0 as u64).saturating_sub(replaced as u64)
}

// The same of an offset that is known to be moved within a text. It makes no test and stays in 32 bits, since each line that is
// moved has three of them.
pub fn moved_number(x: u32, edit: Edit) -> u32
    requires { MovableEdit edit × MovableOffset edit x }
    ensures { result ≡ moved edit x }
{
    let replaced = edit.to.0 - edit.from.0;
    x + edit.inserted.0 - replaced
}

// The characters before an old line that follows, counted on.
pub fn shifted_count(x: u32, shift: Shift) -> u32
    requires { MovableShift shift × MovableCount shift x }
    ensures { result ≡ shift.to.0 + (x - shift.from.0) }
{
    shift.to.0 + (x - shift.from.0)
}
