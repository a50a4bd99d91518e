// Refusal 8: a buffer that is too small.
ghost use Rattle.std.specs.Prelude.{◌≡◌};
ghost use Rattle.meaning.specs.Checks.{check_room};

use meaning::refusals::Refusal;

// A buffer holds so many entries, and so many are needed.
pub fn check_room(room: usize, needed: usize) -> Result<(), Refusal>
    ensures { result ≡ check_room room needed }
{
    if room < needed {
        return Err(Refusal::TooSmall(needed as u64));
    }
    Ok(())
}
