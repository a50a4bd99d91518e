// The settings of the scope's examples, in a box 30 wide.
use meaning::counts::Pixels;
use meaning::settings::Settings;

// Left aligned, leading spaces on. Nothing here asks for heights.
pub fn sample_settings() -> Settings {
    Settings {
        glyph: Pixels(6),
        width: Pixels(30),
        tab: Pixels(24),
        spacing: Pixels(0),
        paragraph: Pixels(0),
        base: Pixels(1),
        height: Pixels(0),
        top: 0,
        alignment: 0,
        vertical: 0,
        leading: 1,
        trailing: 0,
        wrap: 0,
    }
}
