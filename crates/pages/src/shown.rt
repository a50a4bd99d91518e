// The text of each page, line by line, between rules with the page's number.
ghost use Rattle.std.specs.Prelude.{◌<◌};

use meaning::sizes::{ENTRY_NUMBERS, PAGE_NUMBERS};
use std::io;

// A line less the character that ends it.
fn unended(line: &[u8]) -> &[u8] {
    match line.split_last() {
        Some((b'\n' | b'\r', others)) => others,
        _ => line,
    }
}

// A stretch of the text as a line of its own.
fn show_stretch(rt: &impl Print, text: &[u8], from: usize, to: usize) -> io::Result<()> {
    if text.len() < to {
        return Ok(());
    }
    if from < to {
        rt.write_all(unended(&text[from..to]))?;
    }
    rt.write_all(b"\n")
}

// The first number of a row: where a line starts, or the first line of a page. Behind the last row it is what all of them come to.
fn first_number<const N: usize>(rows: &[[u32; N]], i: usize, all: usize) -> usize
    requires { 0 < N }
{
    match rows.get(i) {
        Some(row) => row[0] as usize,
        None => all,
    }
}

// The lines from one on and before another. Each ends where the next one starts, and the last where the text ends.
fn show_lines(
    rt: &impl Print,
    text: &[u8],
    lines: &[[u32; ENTRY_NUMBERS]],
    from: usize,
    to: usize,
) -> io::Result<()> {
    for k in from..to.min(lines.len()) {
        let start = first_number(lines, k, text.len());
        let end = first_number(lines, k + 1, text.len());
        show_stretch(rt, text, start, end)?;
    }
    Ok(())
}

pub fn show_pages(
    rt: &impl Print,
    text: &[u8],
    lines: &[[u32; ENTRY_NUMBERS]],
    pages: &[[u32; PAGE_NUMBERS]],
) -> io::Result<()> {
    let n = pages.len();
    for i in 0..n {
        let next = i + 1;
        println!(rt; "---- page {next} of {n} ----")?;
        let from = first_number(pages, i, lines.len());
        let to = first_number(pages, next, lines.len());
        show_lines(rt, text, lines, from, to)?;
    }
    rt.println("----")
}
