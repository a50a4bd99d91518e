// Each refusal as a number, and the value that goes besides it; and what a caller from C gets of any answer.
// Refusal 1, refusal 2, refusal 3, refusal 4, refusal 5, refusal 6, refusal 8, refusal 9, refusal 10, refusal 11, refusal 12.
ghost use Rattle.std.specs.Prelude.{◌≡◌};
ghost use Rattle.meaning.specs.Refusals.{number_of, besides, checked_value};
ghost use Rattle.meaning.specs.Answers.{answer_number, count_value};

use meaning::refusals::Refusal;

pub fn number(r: Refusal) -> u32
    ensures { result ≡ number_of r }
{
    u32::from(r)
}

// What goes besides the number: no number of a kind, since most refusals have none or another one each time.
pub fn value(r: Refusal) -> u64
    ensures { result ≡ besides r }
{
    match r {
        Refusal::SettingOutOfRange => 0,
        Refusal::UnknownAlignment(given) => given as u64,
        Refusal::TextTooLong(length) => length,
        Refusal::NotUtf8(prefix) => prefix.0 as u64,
        Refusal::BadLine(line) => line,
        Refusal::BadEdit => 0,
        Refusal::TooSmall(needed) => needed,
        Refusal::BadField(offset) => offset,
        Refusal::BadIndex(found) => found,
        Refusal::OldEntry(offset) => offset,
        Refusal::RetiredSetting => 0,
    }
}

// The number of the refusal, and 0 where nothing is refused, whatever else a call answers.
pub fn answer_number<T>(answer: &Result<T, Refusal>) -> u32
    ensures { result ≡ answer_number answer.now }
{
    match answer {
        Ok(_) => 0,
        Err(r) => number(*r),
    }
}

// What goes besides the number of a check, and 0 where nothing is refused.
pub fn checked_value(checked: Result<(), Refusal>) -> u64
    ensures { result ≡ checked_value checked }
{
    match checked {
        Ok(()) => 0,
        Err(r) => value(r),
    }
}

// What goes besides the number of a call that answers a count.
pub fn count_value(answer: Result<u64, Refusal>) -> u64
    ensures { result ≡ count_value answer }
{
    match answer {
        Ok(count) => count,
        Err(r) => value(r),
    }
}
