// Of the answers about layout files: lines, and the length of their text.
ghost use Rattle.std.specs.Prelude.{◌≡◌};
ghost use Rattle.meaning.specs.Answers.{readingValue, readingLength};

use checks::refusals::value;
use meaning::answers::FileRead;
use meaning::refusals::Refusal;

pub fn reading_value(a: Result<FileRead, Refusal>) -> u64
    ensures { result ≡ readingValue a }
{
    a.map_or_else(value, |read| read.lines)
}

// The length of the text, and where the call was refused the number that the caller had there.
pub fn reading_length(a: Result<FileRead, Refusal>, old: u64) -> u64
    ensures { result ≡ readingLength a old }
{
    a.map_or(old, |read| read.bytes)
}
