// The schema rules 12 to 29: the rules that one row breaks, and the judge of all rows.
// Stores are plain slices: judge and first_broken, which docs/DECISIONS.md names, ask of their callers what they asked.
#![tactic(auto)]

pub mod judge;
pub mod row;
