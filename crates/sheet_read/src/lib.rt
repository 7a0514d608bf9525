// A whole sheet: read into the tables' stores.
#![tactic(auto)]

pub mod read;
