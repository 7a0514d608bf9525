// A change made in the store of its table, and the way back.
ghost use Rattle.std.specs.Prelude.{length, ◌≤◌, ◌<◌, ◌≡◌};
ghost use Rattle.change_rows.specs.Stores.{Applicable, row_changed, store_after, restored};
ghost use Rattle.prelude.specs.Part.{padded, part};
ghost use Rattle.schema.specs.Layout.{store_length, class_width, row_width};
ghost use Rattle.schema.specs.Numbers.{table_of, number_of, limit};
ghost use Rattle.schema.specs.Store.{table_in};

use crate::edit::{edit_row, is_addition, table_for};
use change_read::carried::{added_row, target_of};
use change_read::read::Change;
use prelude::part::{copy_padded, part_of};
use schema::layout::row_width;
use schema::number::{RowId, number_read, row_id, table_of};
use schema::store::{row, row_count, row_start};
use tables::store::{push_row, put_row, write_count};

// The row that a change is about, in the store of its table. The target is never beyond the limit: number 5 has refused such a change.
pub fn row_changed(change: Change, scratch: &[u8], store: &[u8]) -> RowId
    requires { Applicable change scratch.now store.now }
    ensures { result ≡ row_changed change scratch.now store.now }
{
    let table = table_for(change);
    if is_addition(change) {
        return row_id(table, row_count(table, store));
    }
    number_read(table, target_of(scratch) as usize).unwrap_or(row_id(table, 0))
}

// The change is made: its row added last, or edited where it stands.
pub fn apply(change: Change, scratch: &[u8], id: RowId, store: &mut [u8])
    requires { Applicable change scratch.now store.old × (id ≡ row_changed change scratch.now store.old) }
    ensures { store.new ≡ store_after change scratch.now store.old }
{
    let table = table_for(change);
    if is_addition(change) {
        push_row(table, store, added_row(table, scratch));
    } else {
        let at = row_start(id);
        let end = at + row_width(table);
        edit_row(change, scratch, &mut store[at..end]);
    }
}

// A copy of a row, as it stands before a change.
pub fn save_row(id: RowId, store: &[u8], saved: &mut [u8])
    requires { (store_length (table_of id) ≤ length store.now) × (number_of id < limit (table_of id)) × (length saved.old ≡ class_width) }
    ensures { saved.new ≡ padded class_width ((table_in (table_of id) store.now).row (number_of id)) }
{
    copy_padded(saved, row(store, id));
}

// The row and the count of its table become what they were.
pub fn restore(id: RowId, n: usize, saved: &[u8], store: &mut [u8])
    requires { (store_length (table_of id) ≤ length store.old) × (number_of id < limit (table_of id)) × (n ≤ limit (table_of id))
        × (length saved.now ≡ class_width) }
    ensures { store.new ≡ restored (table_of id) (number_of id) n (part 0 (row_width (table_of id)) saved.now)
        store.old }
{
    let table = table_of(id);
    put_row(store, id, part_of(saved, 0, row_width(table)));
    write_count(table, store, n);
}
