// Lays the text on standard input and lists its lines: 'lines N', and the eleven numbers of each line; or 'refused N V', the
// number of the refusal and what goes besides it. The settings are those of the scope's examples, in a box 30 wide.
#![tactic(auto)]

use console::buffers::large_buffer;
use console::input::fill;
use console::sample::sample_settings;
use console::saying::{refuse, say_rows, say_unread};
use layout::fresh::layout;
use meaning::sizes::ENTRY_NUMBERS;
use std::io;

// The most lines that it lists.
const LINES: usize = 1024;

// Lists a text that was read from this input.
fn list(rt: &(impl Print + Eprint), input: &mut impl io::Read, text: &[u8]) -> io::Result<()> {
    let mut table = [[0u32; ENTRY_NUMBERS]; LINES];
    match layout(sample_settings(), text, table.as_flattened_mut()) {
        // the layout wrote no more than the table holds
        Ok(n) if n <= LINES as u64 => say_rows(rt, "lines", &table[..n as usize]),
        Ok(_) => Ok(()),
        Err(refusal) => refuse(rt, input, "listing", refusal, text.len()),
    }
}

fn main(rt: HostRuntime) -> io::Result<()> {
    let mut input = rt.stdin();
    // one byte more than a text may have
    let mut text = large_buffer();
    let Ok(n) = fill(&mut input, &mut text) else {
        return say_unread(&rt, "listing");
    };
    list(&rt, &mut input, &text[..n])
}
