// What every other crate stands on: numbers read from and written to bytes, parts of a store, copying and clearing. The definitions and
// laws that the crates share (tests and what they decide, bounded tests, the first case that holds, parts and splices) are in specs/.
#![tactic(auto)]

pub mod number;
pub mod part;
