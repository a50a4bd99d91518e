// The fields of a layout file: the tag of each, how many bytes follow its header, and where it stands. The names of specs/LayoutFile.antt
// say the same.
use crate::sizes::{ENTRY_NUMBERS, SETTINGS_NUMBERS};

// A header is a tag of one byte and a length of two.
pub const HEADER_BYTES: usize = 3;

// A number is four bytes.
pub const NUMBER_BYTES: usize = 4;

pub const SETTINGS_TAG: u8 = 1;

pub const LENGTH_TAG: u8 = 2;

pub const LINE_TAG: u8 = 3;

pub const END_TAG: u8 = 255;

pub const SETTINGS_SIZE: usize = NUMBER_BYTES * SETTINGS_NUMBERS;

pub const LINE_SIZE: usize = NUMBER_BYTES * ENTRY_NUMBERS;

// A line's length when a line had ten numbers.
pub const OLD_LINE_SIZE: usize = 40;

// A line's field with its header.
pub const LINE_BYTES: usize = HEADER_BYTES + LINE_SIZE;

// Where the text's length and the first line stand.
pub const LENGTH_AT: usize = HEADER_BYTES + SETTINGS_SIZE;

pub const LINES_AT: usize = LENGTH_AT + HEADER_BYTES + NUMBER_BYTES;

// The bytes of a file that has no line.
pub const FRAME_BYTES: usize = LINES_AT + HEADER_BYTES;
