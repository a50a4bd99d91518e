// What programs say: rows of numbers; and of an input that they refuse, the refusal by number and value, or that it cannot be read.
use crate::input::count_rest;
use checks::refusals::{number, value};
use meaning::refusals::Refusal;
use std::io;

// A row's numbers, with a space between any two, as a line of text.
fn say_row(rt: &impl Print, row: &[u32]) -> io::Result<()> {
    let Some((last, others)) = row.split_last() else {
        return Ok(());
    };
    for number in others {
        print!(rt; "{number} ")?;
    }
    rt.println(last)
}

// What the rows are and how many, and then each of them.
pub fn say_rows<const N: usize>(rt: &impl Print, name: &str, rows: &[[u32; N]]) -> io::Result<()> {
    let n = rows.len();
    println!(rt; "{name} {n}")?;
    for row in rows {
        say_row(rt, row)?;
    }
    Ok(())
}

fn say_refused(rt: &impl Print, refusal: Refusal) -> io::Result<()> {
    let number = number(refusal);
    let value = value(refusal);
    println!(rt; "refused {number} {value}")
}

// Standard input could not be read. The words begin with the program's name.
pub fn say_unread(rt: &impl Eprint, program: &str) -> io::Result<()> {
    eprintln!(rt; "{program}: standard input cannot be read")
}

// The text goes on after its first bytes, which filled the buffer: its length is counted to the end.
fn say_too_long(
    rt: &(impl Print + Eprint),
    input: &mut impl io::Read,
    program: &str,
    first: usize,
) -> io::Result<()> {
    let Ok(rest) = count_rest(input) else {
        return say_unread(rt, program);
    };
    say_refused(rt, Refusal::TextTooLong(rest.saturating_add(first) as u64))
}

// Why a text, of which so many bytes were read from this input, was refused.
pub fn refuse(
    rt: &(impl Print + Eprint),
    input: &mut impl io::Read,
    program: &str,
    refusal: Refusal,
    length: usize,
) -> io::Result<()> {
    if let Refusal::TextTooLong(_) = refusal {
        return say_too_long(rt, input, program, length);
    }
    say_refused(rt, refusal)
}
