// An edit of a text, as offsets (refusal 6, laying again).
use crate::counts::Offset;

// Old bytes from `from` up to `to` give way to `inserted` new ones.
#[derive(Clone, Copy)]
pub struct Edit {
    pub from: Offset,
    pub to: Offset,
    pub inserted: Offset,
}
