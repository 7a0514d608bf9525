// A change made in its table, with what is needed to take it back.
ghost use Rattle.std.specs.Prelude.{◌≡◌, List, ℕ};
ghost use Rattle.schema.specs.Store.{store_of, stores};
ghost use Rattle.change_rows.specs.Rows.{table_for};
ghost use Rattle.change_rows.specs.Stores.{Applicable, row_changed};
ghost use Rattle.keeper_change.specs.Made.{rows_made, before, Restorable, rows_back};

use change_read::read::Change;
use change_rows::apply::{apply, restore, row_changed, save_row};
use change_rows::edit::table_for;
use schema::layout::CLASS_WIDTH;
use schema::number::{RowId, TableId, table_of};
use schema::store::{row_count, store_of};

// The row that a change is about and the count of its table, as they stand before it.
#[derive(Clone, Copy)]
pub struct Before {
    pub id: RowId,
    pub count: usize,
    pub row: [u8; CLASS_WIDTH],
}

// What stands there before a change.
pub fn save<'a>(change: Change, scratch: &[u8], attributes: &'a [u8], classes: &'a [u8]) -> Before
    requires { Applicable change scratch.now (store_of (table_for change) attributes.now classes.now) }
    ensures { result ≡ before change scratch.now (store_of (table_for change) attributes.now classes.now) }
{
    let table = table_for(change);
    let store = store_of(table, attributes, classes);
    let id = row_changed(change, scratch, store);
    let mut row = [0u8; CLASS_WIDTH];
    save_row(id, store, &mut row);
    Before {
        id,
        count: row_count(table, store),
        row,
    }
}

// The change is made in the store of its table.
pub fn make(change: Change, scratch: &[u8], id: RowId, attributes: &mut [u8], classes: &mut [u8])
    requires { Applicable change scratch.now (store_of (table_for change) attributes.old classes.old)
        × (id ≡ row_changed change scratch.now (store_of (table_for change) attributes.old classes.old)) }
    ensures { (k : List ℕ) → stores attributes.new classes.new k
        ≡ rows_made change scratch.now (stores attributes.old classes.old k) }
{
    match table_for(change) {
        TableId::Attributes => apply(change, scratch, id, attributes),
        TableId::Classes => apply(change, scratch, id, classes),
    }
}

// What stood there before it stands there again.
pub fn undo(before: Before, attributes: &mut [u8], classes: &mut [u8])
    requires { Restorable before attributes.old classes.old }
    ensures { (k : List ℕ) → stores attributes.new classes.new k
        ≡ rows_back before (stores attributes.old classes.old k) }
{
    let id = before.id;
    let row = before.row;
    match table_of(id) {
        TableId::Attributes => restore(id, before.count, &row, attributes),
        TableId::Classes => restore(id, before.count, &row, classes),
    }
}
