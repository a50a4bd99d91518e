// Lays the text on standard input and lists its pages of so many lines: 'pages N', and of each page its first line, start and end; or
// 'refused N V', the number of the refusal and what goes besides it. With the word `text` it prints the pages' text, for people.
// The settings are those of the scope's examples, in a box 30 wide.
#![tactic(auto)]

mod shown;
mod words;

ghost use Rattle.std.specs.Prelude.{◌≡◌, length};

use crate::shown::show_pages;
use crate::words::{Asked, Form, read_words};
use console::buffers::large_buffer;
use console::input::fill;
use console::sample::sample_settings;
use console::saying::{refuse, say_rows, say_unread};
use meaning::answers::Paged;
use meaning::sizes::{ENTRY_NUMBERS, PAGE_NUMBERS};
use paging::listed::lay_pages;
use std::io;

// No text has more lines, and no text has more pages than lines.
const LINES: usize = 65536;

fn say_usage(rt: &impl Eprint) -> io::Result<()> {
    rt.eprintln(
        "usage: pages H < TEXT         for each page of H lines: its first line, and the bytes where it starts and ends",
    )?;
    rt.eprintln("       pages H text < TEXT    the text of each page, line by line")?;
    rt.eprintln("H is a number from 1 to 4294967295. TEXT is UTF-8 of at most 65,535 bytes.")
}

// Room for a row of numbers for each line or page of any text. That the array has its length is all that is said of it.
fn no_rows<const N: usize>() -> [[u32; N]; LINES]
    ensures { 65536 ≡ length result }
{
    [[0; N]; LINES]
}

// The pages of a text that was read from this input, as numbers or as text.
fn list(
    rt: &(impl Print + Eprint),
    input: &mut impl io::Read,
    asked: Asked,
    text: &[u8],
) -> io::Result<()> {
    let mut table = no_rows::<ENTRY_NUMBERS>();
    let mut pages = no_rows::<PAGE_NUMBERS>();
    let Paged { lines, pages: n } = match lay_pages(
        sample_settings(),
        text,
        asked.lines,
        table.as_flattened_mut(),
        pages.as_flattened_mut(),
    ) {
        Ok(paged) => paged,
        Err(refusal) => return refuse(rt, input, "pages", refusal, text.len()),
    };
    // no more lines and pages were written than there is room for
    if (LINES as u64) < lines || (LINES as u64) < n {
        return Ok(());
    }
    let pages = &pages[..n as usize];
    match asked.form {
        Form::Numbers => say_rows(rt, "pages", pages),
        Form::Text => show_pages(rt, text, &table[..lines as usize], pages),
    }
}

fn run(rt: &(impl Print + Eprint), input: &mut impl io::Read, asked: Asked) -> io::Result<()> {
    // one byte more than a text may have
    let mut text = large_buffer();
    let Ok(n) = fill(input, &mut text) else {
        return say_unread(rt, "pages");
    };
    list(rt, input, asked, &text[..n])
}

fn main(rt: HostRuntime) -> io::Result<()> {
    match read_words(&rt) {
        Some(asked) => run(&rt, &mut rt.stdin(), asked),
        None => say_usage(&rt),
    }
}
