// The line that is printed.
ghost use Rattle.std.specs.Prelude.{◌^◌, ◌<◌};

use crate::input::LineError;
use crate::tally::Tally;
use std::io;

// The case that comes after those that were counted is none, or it cannot be read.
pub fn say_stopped(rt: &impl Print, error: LineError, t: Tally) -> io::Result<()>
    requires { t.cases < 2 ^ 63 }
{
    let case = t.cases + 1;
    match error {
        LineError::Broken => println!(rt; "recording malformed at case {case}"),
        LineError::Failed => println!(rt; "recording cannot be read at case {case}"),
    }
}

pub fn say_replayed(rt: &impl Print, t: Tally) -> io::Result<()> {
    if t.cases == 0 {
        return rt.println("recording empty, 0 cases");
    }
    match t.first {
        Some(first) => println!(rt;
            "replayed {} cases, {} differ, the first is case {first}",
            t.cases, t.differ
        ),
        None => println!(rt; "replayed {} cases, 0 differ", t.cases),
    }
}
