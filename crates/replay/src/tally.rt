// The recording's cases, counted.
ghost use Rattle.std.specs.Prelude.{◌^◌, ◌<◌, ◌≡◌};
ghost use Rattle.replay.specs.Tally.{counted_of, Sound};

use crate::judge::Verdict;

// How many cases there were, how many differ, and which was the first of those, if there is one.
#[derive(Clone, Copy)]
pub struct Tally {
    pub cases: u64,
    pub differ: u64,
    pub first: Option<u64>,
}

pub fn nothing() -> Tally
    ensures { Sound 0 result }
{
    Tally {
        cases: 0,
        differ: 0,
        first: None,
    }
}

// One line more. A comment is no case.
pub fn count(t: Tally, v: Verdict) -> Tally
    requires cases_bound { t.cases < 2 ^ 63 }
    requires differ_bound { t.differ < 2 ^ 63 }
    ensures { result ≡ counted_of t v }
{
    let cases = t.cases + 1;
    match v {
        Verdict::Comment => t,
        Verdict::Agrees => Tally { cases, ..t },
        Verdict::Differs => Tally {
            cases,
            differ: t.differ + 1,
            first: t.first.or(Some(cases)),
        },
    }
}
