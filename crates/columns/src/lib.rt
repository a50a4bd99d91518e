// A box width for a text that may have so many lines and must lose no character (rule 10).
#![tactic(auto)]

mod checked;
mod filling;
pub mod fitting;
mod gauge;
mod parts;
pub mod planning;
mod skipping;
mod starting;
pub mod width;
