// Refusal 1 of a limit of lines: one that lets no line in.
ghost use Rattle.std.specs.Prelude.{◌≡◌};
ghost use Rattle.meaning.specs.Checks.{check_limit};

use meaning::refusals::Refusal;

// A limit of so many lines.
pub fn check_limit(h: u32) -> Result<(), Refusal>
    ensures { result ≡ check_limit h }
{
    if h == 0 {
        return Err(Refusal::SettingOutOfRange);
    }
    Ok(())
}
