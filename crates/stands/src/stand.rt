// Where a line is to be laid, and where the one after it is (rule 10).
ghost use Rattle.std.specs.Prelude.{◌+◌, ◌≤◌, ◌≡◌, length};
ghost use Rattle.meaning.specs.Checks.{text_limit};
ghost use Rattle.parser.specs.Shorter.{Between};
ghost use Rattle.steps.specs.Knowing.{KnownFits};
ghost use Rattle.steps.specs.Unrolled.{nothing_resumed};
ghost use Rattle.stands.specs.Stands.{text_front, StandsAt, NextReady};

use crate::row::LaidRow;
use meaning::counts::{Chars, Offset};
use steps::ending::nothing_left;
use steps::first::{Known, known_from, nothing_known};
use steps::step::Resumed;

// Where a line is to be laid: its offset, the characters before it, the rest that it resumes, and a word that may be known there.
#[derive(Clone, Copy)]
pub struct Stand {
    pub at: Offset,
    pub before: Chars,
    pub rest: Resumed,
    pub known: Known,
}

// Before the line at an offset, behind so many characters, which resumes a rest, where a word may be known from the line before, and that
// took so many characters.
fn stand_at(
    text: &[u8],
    at: Offset,
    before: Chars,
    rest: Resumed,
    word: Known,
    from: Offset,
    chars: Chars,
) -> Stand
    requires text_len_bound { (length text.now ≤ text_limit) × (at.0 ≤ length text.now) × KnownFits text.now word }
    requires between { Between text.now from.0 at.0 chars.0 }
    ensures { StandsAt text.now at before.0 rest result }
{
    let known = known_from(text, at.0 as usize, rest, word, from.0 as usize, chars.0);
    Stand {
        at,
        before,
        rest,
        known,
    }
}

// At an offset, before a line that resumes a rest and has so many characters before it.
fn at_offset(text: &[u8], at: Offset, before: Chars, rest: Resumed) -> Stand
    requires { (length text.now ≤ text_limit) × (at.0 ≤ length text.now) }
    ensures { StandsAt text.now at before.0 rest result }
{
    stand_at(text, at, before, rest, nothing_known(), at, Chars(0))
}

// The same for one line alone, which looks for no word that the next one might begin with.
pub fn at_one(text: &[u8], at: Offset, before: Chars, rest: Resumed) -> Stand
    ensures { StandsAt text.now at before.0 rest result }
{
    let known = nothing_known();
    Stand {
        at,
        before,
        rest,
        known,
    }
}

// At a text's front.
pub fn at_front(text: &[u8], before: Chars, rest: Resumed) -> Stand
    requires { length text.now ≤ text_limit }
    ensures { StandsAt text.now text_front before.0 rest result }
{
    at_offset(text, Offset(0), before, rest)
}

// At a text's front, where nothing is resumed and no character stands before it.
pub fn at_start(text: &[u8]) -> Stand
    requires { length text.now ≤ text_limit }
    ensures { StandsAt text.now text_front 0 nothing_resumed result }
{
    at_front(text, Chars(0), nothing_left())
}

// Where the line after it is to be laid. Two functions and not one: an answer with the known word in it would go through memory twice.
pub fn next_stand(text: &[u8], stand: Stand, row: LaidRow) -> Stand
    requires { NextReady text.now stand row }
    ensures { StandsAt text.now row.next (stand.before.0 + row.chars.0) row.rest result }
{
    let before = stand.before.0 + row.chars.0;
    let from = stand.at;
    stand_at(
        text,
        row.next,
        Chars(before),
        row.rest,
        stand.known,
        from,
        row.chars,
    )
}
