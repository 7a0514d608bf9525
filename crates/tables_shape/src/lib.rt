// The shape of the two tables' stores: number 2 is given where it is broken.
// A store is a plain slice: stores_formed and table_formed, which docs/ name, ask of their callers what they asked.
#![tactic(auto)]

ghost use Rattle.std.specs.Prelude.{◌≡◌, ◌≤◌, ◌<◌, length};
ghost use Rattle.prelude.specs.Part.{is_zero};
ghost use Rattle.schema.specs.declared.number.TableId.TheVariants.{Attributes, Classes};
ghost use Rattle.schema.specs.Numbers.{limit};
ghost use Rattle.schema.specs.Layout.{store_length};
ghost use Rattle.schema.specs.Store.{table_in};
ghost use Rattle.rows_read.specs.WellFormed.{well_formed};
ghost use Rattle.tables_shape.specs.Shape.{beside_zero, rows_formed, stores_formed, table_formed, unused_rows};

use prelude::number::byte_at;
use prelude::part::{is_zero, part_of};
use rows_read::wellformed::well_formed;
use schema::layout::store_length;
use schema::number::{TableId, row_id, row_limit};
use schema::store::{row, row_count, row_start};

// Whether the unused rows of a store of n rows are zero.
#[tactic(auto, using(crate::proofs::Checking::unused_none))]
fn unused_zero(table: TableId, store: &[u8], n: usize) -> bool
    requires { (n ≤ limit table) × (store_length table ≤ length store.now) }
    ensures { result ≡ is_zero (unused_rows table n store.now) }
{
    // A test of its own: row_id asks for a number below the limit.
    if n == row_limit(table) {
        return true;
    }
    let at = row_start(row_id(table, n));
    let end = store_length(table);
    is_zero(part_of(store, at, end - at))
}

// Whether the reader could have stored row k.
#[tactic(auto, using(schema::specs::StoreLaws::table_row_length))]
fn row_formed(table: TableId, store: &[u8], k: usize) -> bool
    requires { (store_length table ≤ length store.now) × (k < limit table) }
    ensures { result ≡ well_formed table ((table_in table store.now).row k) }
{
    well_formed(table, row(store, row_id(table, k)))
}

// Whether the reader could have stored each of the first n rows.
fn rows_formed(table: TableId, store: &[u8], n: usize) -> bool
    requires { (store_length table ≤ length store.now) × (n ≤ limit table) }
    ensures { result ≡ rows_formed table store.now n }
{
    (0..n).all(|k| row_formed(table, store, k))
}

// Whether the byte beside the count of classes is zero.
#[tactic(auto, unfolding(crate::specs::Shape::beside_zero))]
fn beside_zero(table: TableId, store: &[u8]) -> bool
    requires { store_length table ≤ length store.now }
    ensures { result ≡ beside_zero table store.now }
{
    match table {
        TableId::Attributes => true,
        TableId::Classes => byte_at(store, 1) == 0,
    }
}

// Whether the store of a table is in shape.
#[tactic(auto, unfolding(crate::specs::Shape::table_formed))]
pub fn table_formed(table: TableId, store: &[u8]) -> bool
    requires { store_length table ≤ length store.now }
    ensures { result ≡ table_formed table store.now }
{
    let n = row_count(table, store);
    beside_zero(table, store)
        && n <= row_limit(table)
        && rows_formed(table, store, n)
        && unused_zero(table, store, n)
}

// Whether both are.
#[tactic(auto, unfolding(crate::specs::Shape::stores_formed))]
pub fn stores_formed(attributes: &[u8], classes: &[u8]) -> bool
    requires { (store_length Attributes ≤ length attributes.now) × (store_length Classes ≤ length classes.now) }
    ensures { result ≡ stores_formed attributes.now classes.now }
{
    table_formed(TableId::Attributes, attributes) && table_formed(TableId::Classes, classes)
}
