// What C passes as numbers.
#![tactic(auto)]

ghost use Rattle.std.specs.Prelude.{◌≡◌};
ghost use Rattle.meaning.specs.Settings.{settings_of};

use meaning::counts::Pixels;
use meaning::settings::Settings;

// The settings from the thirteen numbers that C passes.
pub fn settings_from(
    glyph: u32,
    width: u32,
    tab: u32,
    spacing: u32,
    paragraph: u32,
    base: u32,
    height: u32,
    top: i32,
    alignment: u32,
    vertical: u32,
    leading: u32,
    trailing: u32,
    wrap: u32,
) -> Settings
    ensures { result ≡ settings_of glyph width tab spacing paragraph base height top alignment vertical leading trailing wrap }
{
    Settings {
        glyph: Pixels(glyph),
        width: Pixels(width),
        tab: Pixels(tab),
        spacing: Pixels(spacing),
        paragraph: Pixels(paragraph),
        base: Pixels(base),
        height: Pixels(height),
        top,
        alignment,
        vertical,
        leading,
        trailing,
        wrap,
    }
}
