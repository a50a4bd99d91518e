// What a pass keeps of a line, and how it moves: cursor, spaces, place and measure (rule 4, rule 5, rule 8 and rule 10).
#![tactic(auto)]

pub mod cursor;
pub mod lent_cursor;
pub mod measure;
pub mod place;
pub mod space_config;
