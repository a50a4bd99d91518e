// A case: settings and a text, and the tokens, lines and events that were recorded for them.
ghost use Rattle.std.specs.Prelude.{◌≤◌, ◌≡◌, true, length, take, OnOk};
ghost use Rattle.meaning.specs.Table.{of_token, of_all};
ghost use Rattle.meaning.specs.Calls.{text_tokens};
ghost use Rattle.replay.specs.Record.{settings_in, Laid};

use crate::malformed::Malformed;
use crate::same::same_lines;
use crate::shape::{EVENTS, LINES, TOKENS};
use layout::drawn::layout_with_events;
use meaning::counts::Pixels;
use meaning::settings::Settings;
use meaning::sizes::{ENTRY_NUMBERS, EVENT_NUMBERS, TOKEN_NUMBERS};
use tokenizer::tokenize::tokenize;

// The settings that a layout depends on come first, and the retired one. Wrap is 0: the crate knows no other way.
pub fn settings(numbers: &[u32]) -> Settings
    requires { 6 ≤ length numbers.now }
    ensures { result ≡ settings_in numbers.now }
{
    Settings {
        glyph: Pixels(numbers[0]),
        width: Pixels(numbers[1]),
        tab: Pixels(numbers[2]),
        spacing: Pixels(0),
        paragraph: Pixels(0),
        base: Pixels(1),
        height: Pixels(0),
        top: 0,
        alignment: numbers[3],
        vertical: 0,
        leading: numbers[4],
        trailing: numbers[5],
        wrap: 0,
    }
}

// Puts numbers to the front of a text, if all of them are bytes.
pub fn bytes(numbers: &[u32], text: &mut [u8]) -> Result<(), Malformed>
    requires { length numbers.now ≤ length text.old }
    ensures { OnOk result (take (length numbers.now) text.new ≡ numbers.now) }
{
    for (i, number) in numbers.iter().enumerate() {
        let Ok(byte) = u8::try_from(*number) else {
            return Err(Malformed);
        };
        text[i] = byte;
    }
    Ok(())
}

// Whether the text's tokens are the recorded ones.
pub fn tokens_agree(text: &[u8], recorded: &[u32]) -> bool
    ensures { result ≡ true → recorded.now ≡ of_all of_token (text_tokens text.now) }
{
    let mut tokens = [0u32; TOKENS as usize * TOKEN_NUMBERS];
    let Ok(n) = tokenize(text, &mut tokens) else {
        return false;
    };
    if (TOKENS as u64) < n {
        return false;
    }
    let size = TOKEN_NUMBERS * n as usize;
    &tokens[..size] == recorded
}

// Whether its lines and its events are.
pub fn layout_agrees(s: Settings, text: &[u8], lines: &[u32], events: &[u32]) -> bool
    ensures { result ≡ true → Laid s text.now lines.now events.now }
{
    let mut table = [0u32; LINES as usize * ENTRY_NUMBERS];
    let mut drawn = [0u32; EVENTS as usize * EVENT_NUMBERS];
    let Ok(laid) = layout_with_events(s, text, &mut table, &mut drawn) else {
        return false;
    };
    if (LINES as u64) < laid.lines {
        return false;
    }
    if (EVENTS as u64) < laid.events {
        return false;
    }
    let size = EVENT_NUMBERS * laid.events as usize;
    if &drawn[..size] != events {
        return false;
    }
    same_lines(&table, laid.lines as usize, lines)
}
