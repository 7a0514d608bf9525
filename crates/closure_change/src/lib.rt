// The closure store after a change, worked out from the sets that it kept, and rule 30 of a quick change.
// Stores and change rows are plain slices: update and demand_changes, which docs/ name, ask of their callers what they asked.
#![tactic(auto)]

pub mod added;
pub mod after;
pub mod each;
