// A change: read from its bytes, and what it carries.
#![tactic(auto)]

pub mod carried;
pub mod read;
