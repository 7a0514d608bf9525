// Rules of an attribute row: its range (25), its syntax (26, 27), the forward link that a back link needs (29), and the syntax that a link needs (45).
// Stores and rows are plain slices, since the functions that docs/NUMBERS.md names ask of their callers what they asked.
#![tactic(auto)]

pub mod link;
pub mod range;
pub mod syntax;
