// What the keeper holds: the numbers of classes and attributes, the stores and their rows byte by byte, and the answer of a call.
// docs/LAYOUT.md shows the layout as a table.
#![tactic(auto)]

pub mod answer;
pub mod attribute;
pub mod class;
pub mod layout;
pub mod number;
pub mod object_classes;
pub mod refusal;
pub mod row;
pub mod store;
