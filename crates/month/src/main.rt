// A month of clues in numbers: month WIDTHS [people] < CLUES. Each line of standard input is a clue, and each line of the file WIDTHS a box
// width. Printed is a line of figures for each width, or a table for people. The other settings are those of the listing program.
#![tactic(auto)]

mod block;
mod say;
mod stream;
mod width_lines;

ghost use Rattle.std.specs.Prelude.{◌≤◌, ◌≡◌, length};
ghost use Rattle.moves.specs.Fine.{FineSettings};
ghost use Rattle.clues.specs.Summing.{Narrow};
ghost use Rattle.month.specs.WidthFile.{Read};

use crate::say::{Form, say_bad_width, say_failed, say_month, say_usage};
use crate::stream::{Count, count_stream};
use crate::width_lines::{MOST_WIDTHS, WidthsError, parse_widths};
use console::buffers::buffer;
use console::input::fill;
use console::words::{word, word_count};
use meaning::counts::Pixels;
use meaning::settings::Settings;
use month_figures::adding::no_figures;
use std::env::Env;
use std::io::IsTerminal;
use std::rt::Files;
use std::{fs, io};

// Left aligned, leading spaces on. Nothing here asks for heights, and the width is each one's own.
fn settings() -> Settings
    ensures { FineSettings result }
{
    Settings {
        glyph: Pixels(6),
        width: Pixels(0),
        tab: Pixels(24),
        spacing: Pixels(0),
        paragraph: Pixels(0),
        base: Pixels(1),
        height: Pixels(0),
        top: 0,
        alignment: 0,
        vertical: 0,
        leading: 1,
        trailing: 0,
        wrap: 0,
    }
}

// Counts an input in these widths, and says what was counted.
fn count_month(
    rt: &(impl Print + Eprint),
    input: &mut impl io::Read,
    terminal: bool,
    widths: &[u32],
    form: Form,
) -> io::Result<()>
    requires widths_len_bound { length widths.now ≤ 64 }
    requires narrow { Narrow widths.now }
{
    let mut sums = [no_figures(); MOST_WIDTHS];
    let sums = &mut sums[..widths.len()];
    match count_stream(rt, input, terminal, settings(), widths, sums)? {
        Count::Whole => say_month(rt, widths, sums, form),
        Count::Stopped => {
            rt.eprintln("month: reading stopped at 4294967295 clues")?;
            say_month(rt, widths, sums, form)
        }
        Count::Failed => rt.eprintln("month: standard input cannot be read"),
    }
}

// The widths of a file that is open.
fn widths_of(file: &mut impl io::Read, widths: &mut [u32]) -> Result<usize, WidthsError>
    ensures { Read result widths.new }
{
    let mut text = buffer();
    let n = fill(file, &mut text)?;
    parse_widths(&text[..n], widths)
}

fn run<R: Print + Eprint + Alloc + Files>(
    rt: &R,
    input: &mut impl io::Read,
    terminal: bool,
    path: &str,
    form: Form,
) -> io::Result<()> {
    // It stays open while the clues are counted: where standard input is closed, it stands in its place, and has ended.
    let mut file = match fs::open(rt, path) {
        Ok(file) => file,
        Err(error) => {
            return say_failed(rt, path, error);
        }
    };
    let mut widths = [0u32; MOST_WIDTHS];
    match widths_of(&mut file, &mut widths) {
        Ok(n) => count_month(rt, input, terminal, &widths[..n], form),
        Err(WidthsError::Bad(line)) => say_bad_width(rt, line),
        Err(WidthsError::Unread(error)) => say_failed(rt, path, error),
    }
}

// Whether the last word asks for the table for people.
fn asks_for_people(rt: &impl Env) -> bool {
    let mut bytes = buffer();
    let n = word(rt, 2, &mut bytes);
    bytes[..n] == b"people"[..]
}

// More words than the program knows.
const MOST_WORDS: usize = 4;

fn main(rt: HostRuntime) -> io::Result<()> {
    let form = match word_count(&rt, MOST_WORDS) {
        2 => Form::Lines,
        3 if asks_for_people(&rt) => Form::Table,
        _ => {
            return say_usage(&rt);
        }
    };
    let mut path = buffer();
    let Ok(n) = rt.arg(1, &mut path) else {
        return rt.eprintln("month: File name too long");
    };
    let Ok(path) = str::from_utf8(&path[..n]) else {
        return rt.eprintln("month: the file's name is not UTF-8");
    };
    run(&rt, &mut rt.stdin(), rt.stderr().is_terminal(), path, form)
}
