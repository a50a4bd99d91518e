// Pages of h lines, and the part of a text that its first h lines take (rule 10).
#![tactic(auto)]

mod checked;
pub mod listed;
