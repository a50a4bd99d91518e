// What lines are filled by.
ghost use Rattle.std.specs.Prelude.{◌≤◌};

// How wide a glyph, a tab and a line are: in a box that the settings allow, so that no sum over a line wraps.
#[derive(Clone, Copy)]
pub struct Gauge {
    pub glyph: u32,
    pub tab: u32,
    pub width: u32,
    pub ghost fine: { (glyph ≤ 64) × (tab ≤ 4096) × (width ≤ 4096) },
}
