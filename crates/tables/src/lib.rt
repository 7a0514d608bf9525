// The tables: rows put into their stores, what a row names, and which rows it may name.
#![tactic(auto)]

pub mod live;
pub mod named;
pub mod store;
