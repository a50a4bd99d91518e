// Settings with another box width.
ghost use Rattle.std.specs.Prelude.{◌≡◌};
ghost use Rattle.meaning.specs.Columns.{with_width};

use meaning::settings::Settings;

// The widest box that the settings allow. `widest_box` of meaning says the same.
pub const WIDEST_BOX: u32 = 4096;

// The same settings with another box width.
pub fn with_width(s: Settings, w: u32) -> Settings
    ensures { result ≡ with_width s w }
{
    let mut other = s;
    other.width.0 = w;
    other
}
