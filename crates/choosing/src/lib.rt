// A long text or the beginning of a short one, whichever so many lines hold (#110).
#![tactic(auto)]

pub mod choosing;
pub mod taken;
