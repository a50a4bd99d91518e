// The layout file: settings, a text's length and a line table as bytes that travel. docs/LAYOUT-FILE.md has its form.
#![tactic(auto)]

pub mod lines;
pub mod reader;
pub mod settings;
pub mod writer;
