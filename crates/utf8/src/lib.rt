// UTF-8 and White_Space, against the Unicode Standard.
#![tactic(auto)]

pub mod long;
pub mod sequence;
pub mod text;
pub mod white_space;
mod whole;
