// Why a call refuses its input (refusal 1, refusal 2, refusal 3, refusal 4, refusal 5, refusal 6, refusal 8, refusal 9, refusal 10,
// refusal 11, refusal 12).
ghost use Rattle.std.specs.Prelude.{◌≡◌};
ghost use Rattle.meaning.specs.Refusals.{number_of, besides};

use crate::counts::Offset;

// Why a call refused its input. Number 7 is not used any more. `number_of` and `besides` (specs/Refusals.antt) give the scope's number and what goes with it.
#[derive(Clone, Copy)]
pub enum Refusal {
    SettingOutOfRange,
    UnknownAlignment(u32),
    TextTooLong(u64),
    NotUtf8(Offset),
    BadLine(u64),
    BadEdit,
    TooSmall(u64),
    BadIndex(u64),
    // the offset in a layout file of the field that is not as it should be
    BadField(u64),
    // the offset of a line's field as it was before lines had as many numbers as now
    OldEntry(u64),
    // a layout file has a setting that is retired; the call hands the other settings out
    RetiredSetting,
}

impl From<Refusal> for u32 {
    ghost from_gives = { λ refusal number. number ≡ number_of refusal };

    fn from(refusal: Refusal) -> u32 {
        match refusal {
            Refusal::SettingOutOfRange => 1,
            Refusal::UnknownAlignment(_) => 2,
            Refusal::TextTooLong(_) => 3,
            Refusal::NotUtf8(_) => 4,
            Refusal::BadLine(_) => 5,
            Refusal::BadEdit => 6,
            Refusal::TooSmall(_) => 8,
            Refusal::BadField(_) => 9,
            Refusal::BadIndex(_) => 10,
            Refusal::OldEntry(_) => 11,
            Refusal::RetiredSetting => 12,
        }
    }
}
