// Tokens of a text, by offsets into its bytes (the crate's parser/mod.rs).
// That a text is short is a clause, and not a type: a struct that holds the bytes and the fact would have each `ensures` name them at the
// call's entry (`text.entry.bytes.now`).
#![tactic(auto)]

pub mod ascii;
pub mod characters;
pub mod glue;
pub mod later;
pub mod letters;
pub mod lexeme;
pub mod lexer;
pub mod marks;
pub mod part;
pub mod scan;
