// How many numbers a line, an event, a token and a page are in a lent buffer, where each number of a line stands, and how long a
// text may be. `entry_numbers`, `event_numbers`, `token_numbers`, `page_numbers` and `text_limit` of specs/ say the same.
// Rule 3, rule 12, rule 13, refusal 3.

// The numbers of a line entry, of an event, of a token and of a page.
pub const ENTRY_NUMBERS: usize = 11;

pub const EVENT_NUMBERS: usize = 6;

pub const TOKEN_NUMBERS: usize = 4;

pub const PAGE_NUMBERS: usize = 3;

// The most bytes of a text, and the farthest that a line reaches: the end of such a text counts as one byte more.
pub const TEXT_LIMIT: usize = 65535;

pub const REACH_LIMIT: u32 = TEXT_LIMIT as u32 + 1;

// The place of each number of an entry; its start stands first.
pub const REST_END: usize = 1;

pub const REST_COUNT: usize = 2;

pub const ENDING: usize = 3;

pub const LEFT: usize = 4;

pub const SPACE: usize = 5;

pub const EXTRA: usize = 6;

pub const WIDTH: usize = 7;

pub const DROPPED: usize = 8;

pub const REACH: usize = 9;

pub const BEFORE: usize = 10;

// What C gets in place of a line where there is none. `noLineNumber` of specs/ says the same.
pub const NO_LINE: u64 = 18446744073709551615;

// The numbers of the settings, and the place of the one that is retired.
pub const SETTINGS_NUMBERS: usize = 13;

pub const TRAILING: usize = 11;
