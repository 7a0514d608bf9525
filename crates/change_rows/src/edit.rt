// The row that a change is about, as the change leaves it.
ghost use Rattle.std.specs.Prelude.{false, List, ℕ, ◌≡◌, length};
ghost use Rattle.schema.specs.Layout.{class_width, row_width};
ghost use Rattle.change_read.specs.Carried.{entry_of, list_of};
ghost use Rattle.change_rows.specs.Rows.{table_for, is_addition, edited_row};
ghost use Rattle.change_rows.specs.Edits.{IsEdit, LeavesEdited, TakesSet, list_edited};

use crate::list::{entry_read, list_width, open_at};
use change_read::carried::{list_of, new_name, new_range};
use change_read::read::Change;
use prelude::part::put_bytes;
use schema::layout::{DEFUNCT, NAME, RANGE_LOWER};
use schema::number::{TableId, number_of};
use sets::{insert, remove};

// The table of the row that a change is about.
pub fn table_for(change: Change) -> TableId
    ensures { result ≡ table_for change }
{
    match change {
        Change::Add(table)
        | Change::Rename(table)
        | Change::Deactivate(table)
        | Change::Reactivate(table) => table,
        Change::SetRange => TableId::Attributes,
        Change::AddEntry | Change::RemoveEntry => TableId::Classes,
    }
}

// Whether it adds a row.
pub fn is_addition(change: Change) -> bool
    ensures { result ≡ is_addition change }
{
    matches!(change, Change::Add(_))
}

// An open list of a class row, edited by a step: an entry more, or one less. For one beyond the limit no list has a bit.
fn edit_entry<F: FnOnce(&mut [u8], usize)>(scratch: &[u8], row: &mut [u8], edit: F)
    requires wide { (length scratch.now ≡ class_width) × (length row.old ≡ class_width) }
    requires callable { TakesSet (F.pre edit) }
    ensures { (f : List ℕ → List ℕ) → IsEdit (entry_of scratch.now) f → LeavesEdited (F.post edit) (entry_of scratch.now) f
        → row.new ≡ list_edited (list_of scratch.now) f row.old }
{
    let Some(id) = entry_read(scratch) else {
        return;
    };
    let list = list_of(scratch);
    let at = open_at(list);
    let end = at + list_width(list);
    edit(&mut row[at..end], number_of(id));
}

// The row of a change that has a target.
pub fn edit_row(change: Change, scratch: &[u8], row: &mut [u8])
    requires { (is_addition change ≡ false) × (length scratch.now ≡ class_width) × (length row.old ≡ row_width (table_for change)) }
    ensures { row.new ≡ edited_row change scratch.now row.old }
{
    match change {
        Change::Add(_) => {}
        Change::SetRange => {
            put_bytes(new_range(scratch), row, RANGE_LOWER);
        }
        Change::Rename(_) => {
            put_bytes(new_name(scratch), row, NAME);
        }
        Change::Deactivate(_) => row[DEFUNCT] = 1,
        Change::Reactivate(_) => row[DEFUNCT] = 0,
        Change::AddEntry => edit_entry(scratch, row, insert),
        Change::RemoveEntry => edit_entry(scratch, row, remove),
    }
}
