// Numbers 5 to 11.
ghost use Rattle.std.specs.Prelude.{◌≡◌, ◌≤◌, ◌<◌, length};
ghost use Rattle.sets.specs.Sets.{member};
ghost use Rattle.schema.specs.Layout.{common_width, class_width, row_width, store_length};
ghost use Rattle.schema.specs.Numbers.{table_of, number_of};
ghost use Rattle.schema.specs.Refused.{outcome_number};
ghost use Rattle.schema.specs.Store.{schema_in, table, table_in};
ghost use Rattle.tables.specs.Shaped.{Shaped};
ghost use Rattle.change_read.specs.Carried.{list_of, entry_of};
ghost use Rattle.change_rows.specs.Lists.{open_of, fixed_of};
ghost use Rattle.change_rows.specs.Rows.{table_for};
ghost use Rattle.change_asked.specs.Asked.{state_wrong, base_touched, entry_conflict, still_needed, addition_asked, target_asked, first_asked};

use crate::needed::is_needed;
use change_read::carried::{added_row, list_of, target_of};
use change_read::read::Change;
use change_rows::edit::{is_addition, table_for};
use change_rows::list::{entry_read, fixed_at, list_width, open_at};
use prelude::part::part_of;
use schema::number::{RowId, TableId, number_of, number_read, row_limit};
use schema::refusal::Refusal;
use schema::row::{is_base, is_defunct};
use schema::store::{row_count, schema_row, store_of};
use sets::has;

// Whether the target's state is wrong for the change.
fn state_wrong(change: Change, row: &[u8]) -> bool
    requires { common_width ≤ length row.now }
    ensures { result ≡ state_wrong change row.now }
{
    match change {
        Change::Add(_) => false,
        Change::Reactivate(_) => !is_defunct(row),
        Change::SetRange
        | Change::Rename(_)
        | Change::Deactivate(_)
        | Change::AddEntry
        | Change::RemoveEntry => is_defunct(row),
    }
}

// Whether the change may not touch the target, a base row.
fn base_touched(change: Change, row: &[u8]) -> bool
    requires { common_width ≤ length row.now }
    ensures { result ≡ base_touched change row.now }
{
    match change {
        Change::SetRange | Change::Rename(_) | Change::Deactivate(_) => is_base(row),
        Change::Add(_) | Change::Reactivate(_) | Change::AddEntry | Change::RemoveEntry => false,
    }
}

// Whether the open list holds the entry that the change names. Apart from in_fixed: one function of list and place has an argument more.
fn in_open(scratch: &[u8], row: &[u8]) -> bool
    requires { (length scratch.now ≡ class_width) × (length row.now ≡ class_width) }
    ensures { result ≡ member (open_of (list_of scratch.now) row.now) (entry_of scratch.now) }
{
    let list = list_of(scratch);
    let held = part_of(row, open_at(list), list_width(list));
    entry_read(scratch).is_some_and(|id| has(held, number_of(id)))
}

// Whether the fixed list does.
fn in_fixed(scratch: &[u8], row: &[u8]) -> bool
    requires { (length scratch.now ≡ class_width) × (length row.now ≡ class_width) }
    ensures { result ≡ member (fixed_of (list_of scratch.now) row.now) (entry_of scratch.now) }
{
    let list = list_of(scratch);
    let held = part_of(row, fixed_at(list), list_width(list));
    entry_read(scratch).is_some_and(|id| has(held, number_of(id)))
}

// Whether the entry is in the list already, or, to be removed, is not.
fn entry_conflict(change: Change, scratch: &[u8], row: &[u8]) -> bool
    requires { (length scratch.now ≡ class_width) × (length row.now ≡ row_width (table_for change)) }
    ensures { result ≡ entry_conflict change scratch.now row.now }
{
    match change {
        Change::AddEntry => in_open(scratch, row) || in_fixed(scratch, row),
        Change::RemoveEntry => !in_open(scratch, row),
        Change::Add(_)
        | Change::SetRange
        | Change::Rename(_)
        | Change::Deactivate(_)
        | Change::Reactivate(_) => false,
    }
}

// Whether the target is to be deactivated and another row needs it.
fn still_needed<'a>(change: Change, id: RowId, attributes: &'a [u8], classes: &'a [u8]) -> bool
    requires { Shaped attributes.now classes.now × (table_of id ≡ table_for change)
        × (number_of id < (table (table_of id) (schema_in attributes.now classes.now)).count) }
    ensures { result ≡ still_needed change (number_of id) (schema_in attributes.now classes.now) }
{
    match change {
        Change::Deactivate(_) => is_needed(id, attributes, classes),
        Change::Add(_)
        | Change::SetRange
        | Change::Rename(_)
        | Change::Reactivate(_)
        | Change::AddEntry
        | Change::RemoveEntry => false,
    }
}

// What an addition asks: a free row (6), and that the row is no base row (9).
fn addition_asked(table: TableId, scratch: &[u8], store: &[u8]) -> Result<(), Refusal>
    requires { (length scratch.now ≡ class_width) × (store_length table ≤ length store.now) }
    ensures { outcome_number result ≡ addition_asked table scratch.now (table_in table store.now) }
{
    if row_limit(table) <= row_count(table, store) {
        return Err(Refusal::NoFreeRow);
    }
    if is_base(added_row(table, scratch)) {
        return Err(Refusal::AddedBaseRow);
    }
    Ok(())
}

// What any other change asks of a target that is there: 7, 8, 10 and 11.
fn target_asked<'a>(
    change: Change,
    scratch: &[u8],
    id: RowId,
    attributes: &'a [u8],
    classes: &'a [u8],
) -> Result<(), Refusal>
    requires { Shaped attributes.now classes.now × (length scratch.now ≡ class_width) × (table_of id ≡ table_for change)
        × (number_of id < (table (table_of id) (schema_in attributes.now classes.now)).count) }
    ensures { outcome_number result ≡ target_asked change scratch.now (number_of id) (schema_in attributes.now classes.now) }
{
    let row = schema_row(attributes, classes, id);
    if state_wrong(change, row) {
        return Err(Refusal::WrongState);
    }
    if base_touched(change, row) {
        return Err(Refusal::BaseRow);
    }
    if entry_conflict(change, scratch, row) {
        return Err(Refusal::EntryConflict);
    }
    if still_needed(change, id, attributes, classes) {
        return Err(Refusal::StillNeeded);
    }
    Ok(())
}

// Refused by the first of numbers 5 to 11 whose condition holds.
pub fn first_asked<'a>(
    change: Change,
    scratch: &[u8],
    attributes: &'a [u8],
    classes: &'a [u8],
) -> Result<(), Refusal>
    requires { Shaped attributes.now classes.now × (length scratch.now ≡ class_width) }
    ensures { outcome_number result ≡ first_asked change scratch.now (schema_in attributes.now classes.now) }
{
    let table = table_for(change);
    let store = store_of(table, attributes, classes);
    if is_addition(change) {
        return addition_asked(table, scratch, store);
    }
    let id = number_read(table, target_of(scratch) as usize).ok_or(Refusal::NoSuchRow)?;
    if row_count(table, store) <= number_of(id) {
        return Err(Refusal::NoSuchRow);
    }
    target_asked(change, scratch, id, attributes, classes)
}
