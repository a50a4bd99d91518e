// Where a line stands: its offset, the characters before it, what it resumes; and where the next one does (rule 10).
// That a text is short is a clause, and not a type: see parser.
#![tactic(auto)]

pub mod row;
pub mod stand;
