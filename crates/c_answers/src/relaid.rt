// Of the answer of laying again after an edit: lines, and lines laid.
ghost use Rattle.std.specs.Prelude.{◌≡◌};
ghost use Rattle.meaning.specs.Answers.{relayValue, relayCount};

use checks::refusals::value;
use meaning::answers::Relaid;
use meaning::refusals::Refusal;

pub fn relay_value(a: Result<Relaid, Refusal>) -> u64
    ensures { result ≡ relayValue a }
{
    a.map_or_else(value, |relaid| relaid.lines)
}

// The count of lines laid, and where the call was refused the number that the caller had there.
pub fn relay_count(a: Result<Relaid, Refusal>, old: u64) -> u64
    ensures { result ≡ relayCount a old }
{
    a.map_or(old, |relaid| relaid.laid)
}
