// A field of a file: a tag of one byte, a length of two bytes with the low one first, and so many bytes.
ghost use Rattle.std.specs.Prelude.{◌+◌, ◌*◌, ◌/◌, ◌%◌, ◌≤◌, ◌≡◌, [], ◌∷◌, length, drop};
ghost use Rattle.meaning.specs.LayoutFile.{header_bytes};
ghost use Rattle.meaning.specs.ReadFile.{is_field};
ghost use Rattle.table.specs.Numbers.{put_numbers};

use meaning::fields::HEADER_BYTES;

fn size_of(low: u8, high: u8) -> usize
    ensures { result ≡ low + 256 * high }
{
    u16::from_le_bytes([low, high]) as usize
}

// Does a whole field of this tag and this length stand at an offset.
pub fn is_field(file: &[u8], at: usize, tag: u8, size: usize) -> bool
    requires { (at ≤ length file.now) × (size ≤ 65535) }
    ensures { result ≡ is_field tag size (drop at file.now) }
{
    if file.len() - at < HEADER_BYTES + size {
        return false;
    }
    (file[at] == tag) & (size_of(file[at + 1], file[at + 2]) == size)
}

// The tag and the length of a field, to an offset.
pub fn write_header(file: &mut [u8], at: usize, tag: u8, size: usize)
    requires { (at + header_bytes ≤ length file.old) × (size ≤ 65535) }
    ensures { file.new ≡ put_numbers file.old at (tag ∷ size % 256 ∷ size / 256 ∷ []) }
{
    let [low, high] = (size as u16).to_le_bytes();
    file[at] = tag;
    file[at + 1] = low;
    file[at + 2] = high;
}
