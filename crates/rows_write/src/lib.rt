// Rows written: the value of a row, as fields in the order of its table, at a place of a lent output.
// An output and the place in it stand apart, no writer that holds both: the contracts speak of the slice that C lends.
#![tactic(auto)]

pub mod entries;
pub mod value;
pub mod write;
