// Refusal 1 and refusal 2: a setting that is out of range, an alignment that is unknown.
ghost use Rattle.std.specs.Prelude.{◌≡◌};
ghost use Rattle.meaning.specs.Settings.{top_in_range, sizes_in_range, in_range};
ghost use Rattle.meaning.specs.Checks.{check_settings};

use meaning::refusals::Refusal;
use meaning::settings::Settings;

// Every test here is made, whatever the others say: `&` has no branch, and is what the definitions say.
fn sizes_in_range(
    glyph: u32,
    width: u32,
    tab: u32,
    spacing: u32,
    paragraph: u32,
    base: u32,
    height: u32,
) -> bool
    ensures { result ≡ sizes_in_range glyph width tab spacing paragraph base height }
{
    (1 <= glyph)
        & (glyph <= 64)
        & (width <= 4096)
        & (tab <= 4096)
        & (spacing <= 4096)
        & (paragraph <= 4096)
        & ((1 <= base) & (base <= 64))
        & (height <= 4096)
}

fn top_in_range(s: Settings) -> bool
    ensures { result ≡ top_in_range s.top }
{
    (-4096 <= s.top) & (s.top <= 4096)
}

// Every setting but the two alignments.
fn in_range(s: Settings) -> bool
    ensures { result ≡ in_range s }
{
    let sizes = sizes_in_range(
        s.glyph.0,
        s.width.0,
        s.tab.0,
        s.spacing.0,
        s.paragraph.0,
        s.base.0,
        s.height.0,
    );
    sizes & top_in_range(s) & (s.leading <= 1) & (s.trailing == 0) & (s.wrap <= 1)
}

// Refusal 1 and refusal 2.
pub fn check_settings(s: Settings) -> Result<(), Refusal>
    ensures { result ≡ check_settings s }
{
    if !in_range(s) {
        return Err(Refusal::SettingOutOfRange);
    }
    if 3 < s.alignment {
        return Err(Refusal::UnknownAlignment(s.alignment));
    }
    if 2 < s.vertical {
        return Err(Refusal::UnknownAlignment(s.vertical));
    }
    Ok(())
}
