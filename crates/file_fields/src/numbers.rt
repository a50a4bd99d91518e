// Numbers of 32 bits as four bytes each of a file, the low byte first.
ghost use Rattle.std.specs.Prelude.{◌+◌, ◌*◌, ◌≤◌, ◌≡◌, length, take, drop};
ghost use Rattle.meaning.specs.Table.{of_all};
ghost use Rattle.meaning.specs.LayoutFile.{number_bytes, bytes_of};
ghost use Rattle.meaning.specs.ReadFile.{number_in, numbers_in};
ghost use Rattle.table.specs.Numbers.{put_numbers};

use meaning::fields::NUMBER_BYTES;

// The number at an offset.
pub fn read_number(file: &[u8], at: usize) -> u32
    requires { at + number_bytes ≤ length file.now }
    ensures { result ≡ number_in (drop at file.now) }
{
    u32::from_le_bytes([file[at], file[at + 1], file[at + 2], file[at + 3]])
}

// So many numbers from an offset on, put into a buffer from a place on.
pub fn read_numbers(file: &[u8], at: usize, count: usize, buffer: &mut [u32], place: usize)
    requires { (at + number_bytes * count ≤ length file.now) × (place + count ≤ length buffer.old) }
    ensures { buffer.new ≡ put_numbers buffer.old place (numbers_in count (drop at file.now)) }
{
    for i in 0..count {
        buffer[place + i] = read_number(file, at + NUMBER_BYTES * i);
    }
}

// A number, to an offset.
pub fn write_number(file: &mut [u8], at: usize, n: u32)
    requires { at + number_bytes ≤ length file.old }
    ensures { file.new ≡ put_numbers file.old at (bytes_of n) }
{
    file[at..at + NUMBER_BYTES].copy_from_slice(&n.to_le_bytes());
}

// So many numbers of a buffer from a place on, to an offset and those behind it.
pub fn write_numbers(buffer: &[u32], place: usize, count: usize, file: &mut [u8], at: usize)
    requires { (place + count ≤ length buffer.now) × (at + number_bytes * count ≤ length file.old) }
    ensures { file.new ≡ put_numbers file.old at (of_all bytes_of (take count (drop place buffer.now))) }
{
    for i in 0..count {
        write_number(file, at + NUMBER_BYTES * i, buffer[place + i]);
    }
}
