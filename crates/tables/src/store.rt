// Rows put into the store of their table.
ghost use Rattle.std.specs.Prelude.{◌≡◌, ◌≤◌, ◌<◌, length};
ghost use Rattle.prelude.specs.Part.{splice, zeros};
ghost use Rattle.schema.specs.Numbers.{limit, table_of, number_of};
ghost use Rattle.schema.specs.Layout.{store_length, row_width};
ghost use Rattle.schema.specs.Store.{count_in};
ghost use Rattle.tables.specs.Filled.{count_bytes, put_in, plus_in};

use prelude::number::write_u16;
use prelude::part::{clear, copy_padded};
use schema::layout::row_width;
use schema::number::{RowId, TableId, row_id, table_of};
use schema::store::{row_count, row_start};

// The first n bytes of a store become zero; what stands behind them is not touched.
pub fn empty(store: &mut [u8], n: usize)
    requires { n ≤ length store.old }
    ensures { store.new ≡ splice 0 (zeros n) store.old }
{
    clear(&mut store[0..n]);
}

// A row of a table, in use or not, becomes the given one.
pub fn put_row(store: &mut [u8], id: RowId, row: &[u8])
    requires { (store_length (table_of id) ≤ length store.old) × (number_of id < limit (table_of id)) × (length row.now ≡ row_width (table_of id)) }
    ensures { store.new ≡ put_in (table_of id) (number_of id) row.now store.old }
{
    // Cut out here: a function that lends a row to be written would owe `ensures* writes_back` for the store around it, which is longer than the cut.
    let at = row_start(id);
    let end = at + row_width(table_of(id));
    copy_padded(&mut store[at..end], row);
}

// How many rows the table has, as its store says it.
pub fn write_count(table: TableId, store: &mut [u8], n: usize)
    requires { (store_length table ≤ length store.old) × (n ≤ limit table) }
    ensures { store.new ≡ splice 0 (count_bytes table n) store.old }
{
    match table {
        TableId::Attributes => write_u16(store, 0, n as u16),
        TableId::Classes => store[0] = n as u8,
    }
}

// One row more, last in its table.
pub fn push_row(table: TableId, store: &mut [u8], row: &[u8])
    requires { (store_length table ≤ length store.old) × (count_in table store.old < limit table) × (length row.now ≡ row_width table) }
    ensures { store.new ≡ plus_in table row.now store.old }
{
    let n = row_count(table, store);
    put_row(store, row_id(table, n), row);
    write_count(table, store, n + 1);
}
