// The cursor within a line: its room, its moves, and the next tab stop (rule 4).
ghost use Rattle.std.specs.Prelude.{◌+◌, ◌<◌, ◌≡◌};
ghost use Rattle.meaning.specs.Cursor.{placed_at, room_of, fits_in, advance, has_moved, move_by, tab_width};
ghost use Rattle.moves.specs.Fine.{FineCursor};

use meaning::counts::Pixels;
use meaning::cursor::{LineCursor, Moved};

// What is left of the line.
pub fn room(c: LineCursor) -> u32
    requires { FineCursor c }
    ensures { result ≡ room_of c }
{
    c.width.0 - c.position.0
}

// Does something of a width still go into the line.
pub fn fits(c: LineCursor, w: u32) -> bool
    requires { FineCursor c }
    ensures { result ≡ fits_in c w }
{
    w <= room(c)
}

// The same cursor at another position.
fn placed_at(c: LineCursor, n: u32) -> LineCursor
    ensures { result ≡ placed_at c n }
{
    LineCursor {
        position: Pixels(n),
        ..c
    }
}

// Has it left its starting place.
pub fn has_moved(c: LineCursor) -> bool
    ensures { result ≡ has_moved c }
{
    c.position.0 != c.start.0
}

// The cursor further on: it does not ask whether the line is that long.
pub fn advanced(c: LineCursor, w: u32) -> LineCursor
    requires { c.position.0 + w < 4294967296 }
    ensures { result ≡ advance c w }
{
    placed_at(c, c.position.0 + w)
}

// A move by any signed distance. Forward, one that is too long goes to the edge; back, it stays. The least i32 has no negation, so a
// move back is compared before it is negated.
pub fn move_by(c: LineCursor, by: i32) -> Moved
    requires { FineCursor c }
    ensures { result ≡ move_by c by }
{
    if by < 0 {
        let back = -(c.position.0 as i32);
        if by < back {
            return Moved::Room(back, c);
        }
        return Moved::By(by, placed_at(c, c.position.0 - ((-by) as u32)));
    }
    let left = room(c);
    let ahead = left as i32;
    if ahead < by {
        return Moved::Room(ahead, advanced(c, left));
    }
    Moved::By(by, advanced(c, by as u32))
}

// The distance to the next tab stop.
pub fn tab_width(c: LineCursor) -> u32
    requires { FineCursor c }
    ensures { result ≡ tab_width c }
{
    if c.tab.0 == 0 {
        return 0;
    }
    (c.position.0 / c.tab.0 + 1) * c.tab.0 - c.position.0
}
