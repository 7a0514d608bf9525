// oMObjectClass once the fields of an attribute row are read: the bytes given, the first of the syntax, or none.
ghost use Rattle.std.specs.Prelude.{◌≡◌, ◌≤◌, length};
ghost use Rattle.schema.specs.ObjectClasses.{first_object_class};
ghost use Rattle.schema.specs.Layout.{attribute_width};
ghost use Rattle.rows_read.specs.ObjectClass.{object_class_cell, settled, is_settled};

use prelude::part::{clear, copy_padded};
use schema::attribute::{om_syntax, syntax};
use schema::layout::{OBJECT_CLASS, OBJECT_CLASS_LIMIT, SINGLE_VALUED};
use schema::object_classes::first_object_class;

// How wide the cell is: a count and the bytes.
const CELL: usize = OBJECT_CLASS_LIMIT + 1;

// The cell of a syntax's first value, zero where it has none.
fn first_cell(syntax: u8) -> [u8; CELL]
    ensures { result ≡ object_class_cell (first_object_class syntax) }
{
    let first = first_object_class(syntax);
    let mut cell = [0u8; CELL];
    cell[0] = first.len() as u8;
    copy_padded(&mut cell[1..], first);
    cell
}

// Settles the oMObjectClass of a row.
// Syntaxes stay the papers' numbers: a row may hold any byte, so an enum would need an unknown one too.
pub fn settle(row: &mut [u8])
    requires { attribute_width ≤ length row.old }
    ensures { row.new ≡ settled row.old }
{
    if om_syntax(row) != 127 {
        clear(&mut row[OBJECT_CLASS..SINGLE_VALUED]);
        return;
    }
    if row[OBJECT_CLASS] == 0 {
        let first = first_cell(syntax(row));
        row[OBJECT_CLASS..SINGLE_VALUED].copy_from_slice(&first);
    }
}

// Whether the oMObjectClass of a row is as settling leaves it.
#[tactic(auto, unfolding(crate::specs::ObjectClass::is_settled))]
pub fn is_settled(row: &[u8]) -> bool
    requires { attribute_width ≤ length row.now }
    ensures { result ≡ is_settled row.now }
{
    let n = row[OBJECT_CLASS];
    if om_syntax(row) != 127 {
        n == 0
    } else {
        n != 0 || first_object_class(syntax(row)).is_empty()
    }
}
