// The formats of rows and changes as tables of columns. A column is one field: its tag, whether it must be there, the encoding of its value, and the place
// of its cell in the row. The cells of a row stand side by side in the order of the table.
#![tactic(auto)]

pub mod column;
pub mod format;
