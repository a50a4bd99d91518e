// What the program prints: figures for each width, a table for people, refusal 13, and how it is used.
use meaning::figures::Figures;
use std::io;

// How a month is printed: as a line of words and numbers for each width, or as a table for people.
#[derive(Clone, Copy)]
pub enum Form {
    Lines,
    Table,
}

pub fn say_usage(rt: &impl Eprint) -> io::Result<()> {
    rt.eprintln("usage: month WIDTHS [people] < CLUES")
}

pub fn say_bad_width(rt: &impl Print, line: usize) -> io::Result<()> {
    println!(rt; "refused 13 {line}")
}

// What an error is, as the C library says it: without the number that std puts behind it.
fn told(message: &str) -> &str {
    match message.split_once(" (os error ") {
        Some((what, _)) => what,
        None => message,
    }
}

// That a file could not be opened or read, and why.
pub fn say_failed(rt: &(impl Eprint + Alloc), path: &str, error: io::Error) -> io::Result<()> {
    let message = format!(in rt.alloc(); "{error}")?;
    let why = told(message.as_str());
    eprintln!(rt; "{path}: {why}")
}

fn say_figures(rt: &impl Print, width: u32, f: Figures) -> io::Result<()> {
    println!(rt;
        "width {width} texts {} lines {} broken {} dropped {} refused {} {} most {}",
        f.texts, f.lines, f.broken, f.dropped, f.long, f.invalid, f.most
    )
}

// Each number at the right end of a column, which is 12 wide.
fn say_row(rt: &impl Print, width: u32, f: Figures) -> io::Result<()> {
    println!(rt;
        "{width:>12}{:>12}{:>12}{:>12}{:>12}{:>12}{:>12}{:>12}",
        f.texts, f.lines, f.broken, f.dropped, f.long, f.invalid, f.most
    )
}

fn say_headings(rt: &impl Print) -> io::Result<()> {
    rt.println(
        "       width       texts       lines      broken     dropped    too long   not UTF-8  most lines",
    )
}

fn say_one(rt: &impl Print, width: u32, f: Figures, form: Form) -> io::Result<()> {
    match form {
        Form::Lines => say_figures(rt, width, f),
        Form::Table => say_row(rt, width, f),
    }
}

pub fn say_month(rt: &impl Print, widths: &[u32], sums: &[Figures], form: Form) -> io::Result<()> {
    if let Form::Table = form {
        say_headings(rt)?;
    }
    for (width, f) in widths.iter().zip(sums) {
        say_one(rt, *width, *f, form)?;
    }
    Ok(())
}
