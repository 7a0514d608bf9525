// The stores: counts, and rows by the number of their own kind.
// Stores are plain slices: C lends them, and any_short, which docs/NUMBERS.md names, is what tells that they are long enough.
ghost use Rattle.std.specs.Prelude.{◌≡◌, ◌+◌, ◌*◌, ◌≤◌, ◌<◌, length};
ghost use Rattle.schema.specs.Numbers.{attribute_limit, class_limit, limit, table_of, number_of};
ghost use Rattle.schema.specs.Layout.{store_length, closure_length, closure_width, row_width, rows_at};
ghost use Rattle.schema.specs.Store.{table, schema_in, table_in, closure_at, stores, any_short, store_of};
ghost use Rattle.schema.specs.declared.number.TableId.TheVariants.{Attributes, Classes};

use crate::layout::{CLOSURE_LENGTH, CLOSURE_WIDTH, ROWS, row_width, store_length};
use crate::number::{AttributeNumber, ClassNumber, RowId, TableId, number_of, table_of};
use prelude::number::{byte_at, read_u16};
use prelude::part::part_of;

// How many rows there are in a table.
pub fn row_count(table: TableId, store: &[u8]) -> usize
    requires { store_length table ≤ length store.now }
    ensures { result ≡ (table_in table store.now).count }
{
    match table {
        TableId::Attributes => read_u16(store, 0) as usize,
        TableId::Classes => byte_at(store, 0) as usize,
    }
}

// The store of a table, of the two that are lent.
pub fn store_of<'a>(table: TableId, attributes: &'a [u8], classes: &'a [u8]) -> &'a [u8]
    ensures { result.now ≡ store_of table attributes.now classes.now }
{
    match table {
        TableId::Attributes => attributes,
        TableId::Classes => classes,
    }
}

// Where a row stands in the store of its table. Here alone a row's number becomes an offset.
pub fn row_start(id: RowId) -> usize
    requires { number_of id < limit (table_of id) }
    ensures { result ≡ rows_at + row_width (table_of id) * number_of id }
{
    ROWS + row_width(table_of(id)) * number_of(id)
}

// A row of either table, by its number.
pub fn row(store: &[u8], id: RowId) -> &[u8]
    requires { (store_length (table_of id) ≤ length store.now) × (number_of id < limit (table_of id)) }
    ensures { result.now ≡ (table_in (table_of id) store.now).row (number_of id) }
{
    part_of(store, row_start(id), row_width(table_of(id)))
}

pub fn attribute_row(attributes: &[u8], a: AttributeNumber) -> &[u8]
    requires { (store_length Attributes ≤ length attributes.now) × (a.0 < attribute_limit) }
    ensures { result.now ≡ (table_in Attributes attributes.now).row a.0 }
{
    row(attributes, RowId::Attribute(a))
}

pub fn class_row(classes: &[u8], c: ClassNumber) -> &[u8]
    requires { (store_length Classes ≤ length classes.now) × (c.0 < class_limit) }
    ensures { result.now ≡ (table_in Classes classes.now).row c.0 }
{
    row(classes, RowId::Class(c))
}

// A row of either table, of the two stores that are lent.
pub fn schema_row<'a>(attributes: &'a [u8], classes: &'a [u8], id: RowId) -> &'a [u8]
    requires { (store_length Attributes ≤ length attributes.now) × (store_length Classes ≤ length classes.now) × (number_of id < limit (table_of id)) }
    ensures { result.now ≡ (table (table_of id) (schema_in attributes.now classes.now)).row (number_of id) }
{
    match id {
        RowId::Attribute(a) => attribute_row(attributes, a),
        RowId::Class(c) => class_row(classes, c),
    }
}

// Where the kept sets of a class stand in the closure store, and here alone.
pub fn closure_start(c: ClassNumber) -> usize
    requires { c.0 < class_limit }
    ensures { result ≡ closure_width * c.0 }
{
    CLOSURE_WIDTH * c.0
}

// The three kept sets of a class, side by side.
pub fn closure_row(closure: &[u8], c: ClassNumber) -> &[u8]
    requires { (closure_length ≤ length closure.now) × (c.0 < class_limit) }
    ensures { result.now ≡ closure_at closure.now c.0 }
{
    part_of(closure, closure_start(c), CLOSURE_WIDTH)
}

// Whether a store is shorter than its length: number 1.
#[tactic(auto, unfolding(crate::specs::Store::any_short))]
pub fn any_short(attributes: &[u8], classes: &[u8], closure: &[u8]) -> bool
    ensures { result ≡ any_short (stores attributes.now classes.now closure.now) }
{
    attributes.len() < store_length(TableId::Attributes)
        || classes.len() < store_length(TableId::Classes)
        || closure.len() < CLOSURE_LENGTH
}
