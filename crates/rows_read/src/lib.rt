// Rows read: the value of a row or of a change, s[start..end), into a lent row.
#![tactic(auto)]

pub mod entries;
pub mod field;
pub mod object_class;
pub mod read;
pub mod value;
pub mod wellformed;
