// The public checks of settings, limits and text: refusals 1 to 4 of the scope; and refusal 8, of a buffer.
#![tactic(auto)]

pub mod limit;
pub mod refusals;
pub mod room;
pub mod settings;
pub mod text;
