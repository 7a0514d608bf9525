// Numbers 5 to 11: what a change asks of the schema before it.
// Stores and rows are plain slices: first_asked and is_needed, which docs/NUMBERS.md names, ask of their callers what they asked.
#![tactic(auto)]

pub mod asked;
pub mod needed;
