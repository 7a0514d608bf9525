// The rows after a change, in place: the row that it is about, that row as the change leaves it, and the way back.
// A change and the scratch row that carries it stand apart, since the laws of the changes (Applicable, row_changed) speak of both.
#![tactic(auto)]

pub mod apply;
pub mod edit;
pub mod list;
