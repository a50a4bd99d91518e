// The search for the last line with y at most a given one, by a recursion: the stretch of lines is halved until one line is left.
ghost use Rattle.std.specs.Prelude.{◌≡◌, Some};
ghost use Rattle.meaning.specs.YIndex.{find_in};
ghost use Rattle.index.specs.Stretch.{Stretch};

// That line, which is one of those from `low` on and before `high`. A table has at most 65,536 lines, so there are at most 17 calls
// within one another.
pub fn last_under(index: &[i32], low: usize, high: usize, y: i32) -> usize
    requires { Stretch y index.now low high }
    ensures { Some result ≡ find_in y index.now }
{
    if high - low == 1 {
        return low;
    }
    let middle = low + (high - low) / 2;
    if index[middle] <= y {
        return last_under(index, middle, high, y);
    }
    last_under(index, low, middle, y)
}
