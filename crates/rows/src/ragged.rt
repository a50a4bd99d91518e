// Settings that justify no line, so that lines may be found by their bytes and not walked (rule 6, rule 10).
ghost use Rattle.std.specs.Prelude.{◌/◌, ◌≤◌, ◌≡◌};

use meaning::settings::Settings;

// Such settings, and how many characters a line by them holds.
#[derive(Clone, Copy)]
pub struct Ragged {
    pub settings: Settings,
    pub most: u32,
    pub ghost unjustified: { settings.alignment ≤ 2 },
    pub ghost holds: { most ≡ settings.width.0 / settings.glyph.0 },
}
