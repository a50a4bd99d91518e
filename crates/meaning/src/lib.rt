// The types that settings and answers are made of, and the numbers that stand for their kinds. specs/ says what each rule of the scope means.
#![tactic(auto)]

pub mod answers;
pub mod counts;
pub mod cursor;
pub mod edit;
pub mod fields;
pub mod figures;
pub mod line;
pub mod page;
pub mod refusals;
pub mod settings;
pub mod sizes;
pub mod tokens;
