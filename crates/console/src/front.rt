// Bytes of a buffer, moved to its front.
ghost use Rattle.std.specs.Prelude.{◌-◌, ◌≤◌, ◌≡◌, length, drop};
ghost use Rattle.std.proofs.Math.Seq.{paste};

// Moves the bytes from `at` up to `end` to the front, and answers how many they are.
pub fn to_front(buffer: &mut [u8], at: usize, end: usize) -> usize
    requires at_le_end { at ≤ end }
    requires end_in_bounds { end ≤ length buffer.old }
    ensures value { result ≡ end - at }
    ensures buffer_after { buffer.new ≡ paste buffer.old 0 (drop at buffer.old) (end - at) }
{
    buffer.copy_within(at..end, 0);
    end - at
}
