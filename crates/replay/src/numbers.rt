// The numbers of a line: decimals with a space between any two.
ghost use Rattle.std.specs.Prelude.{◌≡◌, length, take, MatchResult, IfOk, []};
ghost use Rattle.replay.specs.Numbers.{line_numbers};

use crate::malformed::Malformed;
use console::digits::decimal_in;

// Puts the line's numbers to the front of the array, and answers how many they are, if the line is such a list and the array has
// room for it.
pub fn parse(line: &[u8], numbers: &mut [u32]) -> Result<usize, Malformed>
    ensures value { MatchResult result (λ n. n ≡ length (line_numbers (length numbers.old) line.now)) (λ _. line_numbers (length numbers.old) line.now ≡ []) }
    ensures numbers_after { IfOk result (λ n. take n numbers.new ≡ line_numbers (length numbers.old) line.now) }
{
    let mut count: usize = 0;
    for word in line.split(|byte| *byte == b' ') {
        let number = decimal_in(word, u32::MAX).ok_or(Malformed)?;
        if numbers.len() <= count {
            return Err(Malformed);
        }
        numbers[count] = number;
        count += 1;
    }
    Ok(count)
}
