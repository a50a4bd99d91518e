// Whether an index is in order (refusal 10).
ghost use Rattle.std.specs.Prelude.{◌≡◌};
ghost use Rattle.meaning.specs.YIndex.{check_ys, check_index};

use meaning::refusals::Refusal;

// The first y that is smaller than the one before it.
fn check_ys(index: &[i32]) -> Result<(), Refusal>
    ensures { result ≡ check_ys index.now }
{
    for k in 1..index.len() {
        if index[k] < index[k - 1] {
            return Err(Refusal::BadIndex(k as u64));
        }
    }
    Ok(())
}

// An index of so many lines.
pub fn check_index(lines: usize, index: &[i32]) -> Result<(), Refusal>
    ensures { result ≡ check_index lines index.now }
{
    if index.len() != lines {
        return Err(Refusal::BadIndex(index.len() as u64));
    }
    check_ys(index)
}
