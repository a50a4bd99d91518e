// Of the answers about pages, a chosen text and box widths.
ghost use Rattle.std.specs.Prelude.{◌≡◌};
ghost use Rattle.meaning.specs.Answers.{choosingValue, choosingWhich, choosingLeft, pagingValue, pagingCount, fittingValue};

use checks::refusals::value;
use meaning::answers::{Chosen, Paged};
use meaning::refusals::Refusal;

pub fn choosing_value(a: Result<Chosen, Refusal>) -> u64
    ensures { result ≡ choosingValue a }
{
    match a {
        Ok(Chosen::Long(bytes)) => bytes,
        Ok(Chosen::Short(bytes, _)) => bytes,
        Err(refusal) => value(refusal),
    }
}

// Which text was chosen, and where the call was refused the number that the caller had there.
pub fn choosing_which(a: Result<Chosen, Refusal>, old: u32) -> u32
    ensures { result ≡ choosingWhich a old }
{
    match a {
        Ok(Chosen::Long(_)) => 0,
        Ok(Chosen::Short(_, _)) => 1,
        Err(_) => old,
    }
}

// The characters left out, and where the call was refused the number that the caller had there.
pub fn choosing_left(a: Result<Chosen, Refusal>, old: u64) -> u64
    ensures { result ≡ choosingLeft a old }
{
    match a {
        Ok(Chosen::Long(_)) => 0,
        Ok(Chosen::Short(_, chars)) => chars,
        Err(_) => old,
    }
}

pub fn paging_value(a: Result<Paged, Refusal>) -> u64
    ensures { result ≡ pagingValue a }
{
    a.map_or_else(value, |paged| paged.lines)
}

// The count of pages, and where the call was refused the number that the caller had there.
pub fn paging_count(a: Result<Paged, Refusal>, old: u64) -> u64
    ensures { result ≡ pagingCount a old }
{
    a.map_or(old, |paged| paged.pages)
}

pub fn fitting_value(a: Result<bool, Refusal>) -> u64
    ensures { result ≡ fittingValue a }
{
    a.map_or_else(value, |fits| fits as u64)
}
