// Settings as thirteen numbers, read from a file and handed out (refusal 1, refusal 2, refusal 8, refusal 12).
ghost use Rattle.std.specs.Prelude.{◌≤◌, ◌≡◌, [], ◌∷◌, length};
ghost use Rattle.meaning.specs.Checks.{first_of, check_settings};
ghost use Rattle.meaning.specs.Table.{written};
ghost use Rattle.meaning.specs.LayoutFile.{settings_numbers, length_at, of_settings};
ghost use Rattle.meaning.specs.ReadFile.{settings_in, file_settings, unretired, check_retired};

use checks::room::check_room;
use checks::settings::check_settings;
use file_fields::numbers::read_numbers;
use file_fields::signs::{bits_of, signed_of};
use meaning::counts::Pixels;
use meaning::fields::HEADER_BYTES;
use meaning::refusals::Refusal;
use meaning::settings::Settings;
use meaning::sizes::SETTINGS_NUMBERS;

// The settings as thirteen numbers.
pub fn numbers_of(s: Settings) -> [u32; SETTINGS_NUMBERS]
    ensures { result ≡ of_settings s }
{
    let top = bits_of(s.top);
    [
        s.glyph.0,
        s.width.0,
        s.tab.0,
        s.spacing.0,
        s.paragraph.0,
        s.base.0,
        s.height.0,
        top,
        s.alignment,
        s.vertical,
        s.leading,
        s.trailing,
        s.wrap,
    ]
}

// And back.
fn settings_in(numbers: &[u32]) -> Settings
    requires { settings_numbers ≤ length numbers.now }
    ensures { result ≡ settings_in numbers.now }
{
    let top = signed_of(numbers[7]);
    Settings {
        glyph: Pixels(numbers[0]),
        width: Pixels(numbers[1]),
        tab: Pixels(numbers[2]),
        spacing: Pixels(numbers[3]),
        paragraph: Pixels(numbers[4]),
        base: Pixels(numbers[5]),
        height: Pixels(numbers[6]),
        top,
        alignment: numbers[8],
        vertical: numbers[9],
        leading: numbers[10],
        trailing: numbers[11],
        wrap: numbers[12],
    }
}

// The settings of a file.
pub fn file_settings(file: &[u8]) -> Settings
    requires { length_at ≤ length file.now }
    ensures { result ≡ file_settings file.now }
{
    let mut numbers: [u32; SETTINGS_NUMBERS] = [0; SETTINGS_NUMBERS];
    read_numbers(file, HEADER_BYTES, SETTINGS_NUMBERS, &mut numbers, 0);
    settings_in(&numbers)
}

// A 1 for the trailing spaces becomes a 0.
pub fn unretire(s: Settings) -> Settings
    ensures { result ≡ unretired s }
{
    if s.trailing != 1 {
        return s;
    }
    let mut kept = s;
    kept.trailing = 0;
    kept
}

// Refusal 12, and refusal 8 in its place where there is no room for the settings that go with it.
fn check_retired(room: usize, s: Settings) -> Result<(), Refusal>
    ensures { result ≡ check_retired room s }
{
    if s.trailing != 1 {
        return Ok(());
    }
    check_room(room, SETTINGS_NUMBERS)?;
    Err(Refusal::RetiredSetting)
}

// The tests of a file's settings.
pub fn check_known(room: usize, s: Settings) -> Result<(), Refusal>
    ensures { result ≡ first_of (check_settings (unretired s) ∷ check_retired room s ∷ []) }
{
    check_settings(unretire(s))?;
    check_retired(room, s)
}

// The settings of a file, to a buffer.
pub fn hand_out(file: &[u8], settings: &mut [u32])
    requires { (length_at ≤ length file.now) × (settings_numbers ≤ length settings.old) }
    ensures { settings.new ≡ written settings.old (of_settings (unretired (file_settings file.now))) }
{
    let numbers = numbers_of(unretire(file_settings(file)));
    settings[..SETTINGS_NUMBERS].copy_from_slice(&numbers);
}
