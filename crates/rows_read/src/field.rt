// One field of a table: what a column makes of the field in front, and its cell in the row.
ghost use Rattle.std.specs.Prelude.{true, ◌≡◌, ◌≤◌, length};
ghost use Rattle.prelude.specs.Part.{splice, zeros};
ghost use Rattle.wire.specs.Wire.{field_at};
ghost use Rattle.rows_format.specs.Columns.{column_width, takes, cell_of, Sound, Fits};
ghost use Rattle.rows_read.specs.Reading.{turn_of, took_of, row_of};

use crate::value::{accepts, store_value};
use prelude::part::clear;
use reader::field_within;
use rows_format::column::{Column, Presence};
use wire::{BadField, Field, value_of};

// Where reading goes on, and whether a required field is missing so far.
#[derive(Clone, Copy)]
pub struct Progress {
    pub at: usize,
    pub missing: bool,
}

// Whether the column's field may have the value v.
#[tactic(auto, unfolding(rows_format::specs::Columns::takes))]
fn takes(column: Column, v: &[u8]) -> bool
    ensures { result ≡ takes column v.now }
{
    column.presence.is_possible() && accepts(column.encoding, v)
}

// What the column makes of the field at a place of the fields that end at end: its own it takes, that of another column it leaves there.
pub fn turn_of(s: &[u8], at: usize, end: usize, column: Column) -> Result<Option<Field>, BadField>
    requires { (at ≤ end) × (end ≤ length s.now) }
    ensures { result ≡ turn_of s.now at column (field_at s.now at end) }
{
    let Some(field) = field_within(s, at, end)? else {
        return Ok(None);
    };
    if field.tag != column.tag {
        return Ok(None);
    }
    if takes(column, value_of(s, field.start, field.end)) {
        Ok(Some(field))
    } else {
        Err(BadField { at })
    }
}

// The cell of a column becomes that of a value.
fn store_cell(column: Column, v: &[u8], cell: &mut [u8])
    requires { Sound column × (takes column v.now ≡ true) × (length cell.old ≡ column_width column) }
    ensures { cell.new ≡ cell_of column v.now }
{
    if let Presence::Marked = column.presence {
        cell[0] = 1;
        store_value(column.encoding, v, &mut cell[1..]);
    } else {
        store_value(column.encoding, v, cell);
    }
}

// The same in the row.
// Here and in clear_cell the cell is cut out by hand: a Column::cell_mut would owe a contract of the row when the loan ends, longer than these lines.
fn put_cell(column: Column, v: &[u8], row: &mut [u8])
    requires { Fits (length row.old) column × (takes column v.now ≡ true) }
    ensures { row.new ≡ splice column.at (cell_of column v.now) row.old }
{
    let at = column.at;
    let stop = at + column.width();
    store_cell(column, v, &mut row[at..stop]);
}

// The cell of a column becomes zero.
fn clear_cell(column: Column, row: &mut [u8])
    requires { Fits (length row.old) column }
    ensures { row.new ≡ splice column.at (zeros (column_width column)) row.old }
{
    let at = column.at;
    let stop = at + column.width();
    clear(&mut row[at..stop]);
}

// Takes the field of a column into the row, if it stands at the place of the fields that end at end. Where it does not, it is missing if it is required.
pub fn take_field(
    s: &[u8],
    progress: Progress,
    end: usize,
    column: Column,
    row: &mut [u8],
) -> Result<Progress, BadField>
    requires { (progress.at ≤ end) × (end ≤ length s.now) × Fits (length row.old) column }
    ensures { (result ≡ took_of column progress.at progress.missing (turn_of s.now progress.at column (field_at s.now progress.at end)))
        × (row.new ≡ row_of s.now column row.old (turn_of s.now progress.at column (field_at s.now progress.at end))) }
{
    let at = progress.at;
    let Some(field) = turn_of(s, at, end, column)? else {
        clear_cell(column, row);
        let missing = column.presence.is_required() || progress.missing;
        return Ok(Progress { at, missing });
    };
    put_cell(column, value_of(s, field.start, field.end), row);
    Ok(Progress {
        at: field.end,
        missing: progress.missing,
    })
}
