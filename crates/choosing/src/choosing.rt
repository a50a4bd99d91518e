// A long text or a short one, whichever so many lines have room for: a public call (rule 10, refusal 1, refusal 2, refusal 3, refusal 4).
ghost use Rattle.std.specs.Prelude.{◌≡◌, true, length, Ok};
ghost use Rattle.utf8.specs.Decoding.{decode_all};
ghost use Rattle.utf8.specs.Places.{boundary};
ghost use Rattle.meaning.specs.Checks.{check_utf8};
ghost use Rattle.meaning.specs.Frames.{onward};
ghost use Rattle.meaning.specs.Pages.{within_lines};
ghost use Rattle.meaning.specs.PageCalls.{check_choosing, chosen_part, choosing_answer};
ghost use Rattle.choosing.specs.Taking.{Takeable};

use crate::taken::take_lines;
use checks::limit::check_limit;
use checks::settings::check_settings;
use checks::text::check_text;
use meaning::answers::Chosen;
use meaning::refusals::Refusal;
use meaning::settings::Settings;
use utf8::text::count_long;

// Refusals 1 and 2, then 3 and 4 of the long text, then of the short one.
fn check_choosing<'a>(s: Settings, long: &'a [u8], short: &'a [u8], h: u32) -> Result<(), Refusal>
    ensures { result ≡ check_choosing s h long.now short.now }
{
    check_limit(h)?;
    check_settings(s)?;
    check_text(long)?;
    check_text(short)
}

// Part of the long text or of the short one, whichever the limit of lines chooses: the long one whole if it is within the limit, else
// the beginning of the short one that so many lines take.
pub fn chosen_part<'a>(fits: bool, s: Settings, long: &'a [u8], short: &'a [u8], h: u32) -> &'a [u8]
    requires { (fits ≡ within_lines s h (decode_all long.now)) × Takeable s short.now }
    ensures { result.now ≡ chosen_part s h long.now short.now }
{
    if fits {
        return long;
    }
    match take_lines(short, s, h) {
        None => short,
        Some(end) => &short[..end.0 as usize],
    }
}

// How many characters a text has from a boundary on.
fn chars_behind(text: &[u8], from: usize) -> usize
    requires { (check_utf8 text.now ≡ Ok tt) × (boundary (decode_all text.now) from ≡ true) }
    ensures { result ≡ length (onward (decode_all text.now) from) }
{
    count_long(&text[from..])
}

// Which of the two is chosen, its bytes, and the characters left out; or a refusal.
pub fn choose<'a>(s: Settings, long: &'a [u8], short: &'a [u8], h: u32) -> Result<Chosen, Refusal>
    ensures { result ≡ choosing_answer s h long.now short.now }
{
    check_choosing(s, long, short, h)?;
    let fits = take_lines(long, s, h).is_none();
    let part = chosen_part(fits, s, long, short, h);
    let bytes = part.len();
    if fits {
        return Ok(Chosen::Long(bytes as u64));
    }
    let left_out = chars_behind(short, bytes);
    Ok(Chosen::Short(bytes as u64, left_out as u64))
}
