// Rules of a class row: what it names is live and earlier (17, 18), of the right category (19 to 21, 38 to 40); its naming attribute (23).
// Stores and rows are plain slices, since the functions that docs/NUMBERS.md names ask of their callers what they asked.
#![tactic(auto)]

pub mod blank;
pub mod category;
pub mod live;
