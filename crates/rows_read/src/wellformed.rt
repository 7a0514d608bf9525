// The encoding of one row: whether each of its cells is one that the reader could have stored.
ghost use Rattle.std.specs.Prelude.{true, ◌≡◌, ◌+◌, ◌≤◌, length, drop};
ghost use Rattle.prelude.specs.Part.{is_zero};
ghost use Rattle.schema.specs.Layout.{row_width};
ghost use Rattle.rows_format.specs.Encodings.{room, holds, sound};
ghost use Rattle.rows_format.specs.Columns.{mark, cell_at, has_value, well_formed_cell, well_formed_by, Fits};
ghost use Rattle.rows_format.specs.Formats.{columns_of, format_width};
ghost use Rattle.rows_read.specs.WellFormed.{is_finished, well_formed};

use crate::object_class::is_settled;
use crate::value::{first_byte, passes};
use prelude::part::is_zero;
use rows_format::column::{Column, Encoding, Presence};
use rows_format::format::{Format, columns};
use schema::number::{TableId, is_number};
use sets::is_empty;

// Whether all bytes from a place on are zero.
fn is_zero_from(cell: &[u8], at: usize) -> bool
    requires { at ≤ length cell.now }
    ensures { result ≡ is_zero (drop at cell.now) }
{
    is_zero(&cell[at..])
}

// Whether a cell can hold a value of the encoding.
// Encoding and cell stand apart: this is what tells whether they go together.
#[tactic(auto, unfolding(rows_format::specs::Encodings::holds, rows_format::specs::Encodings::room))]
fn holds(encoding: &Encoding, cell: &[u8]) -> bool
    requires { (sound encoding.now ≡ true) × (length cell.now ≡ room encoding.now) }
    ensures { result ≡ holds encoding.now cell.now }
{
    match *encoding {
        Encoding::Plain { test, .. } => passes(test, cell),
        Encoding::Number { table } => is_number(table, first_byte(cell) as usize),
        Encoding::Counted { least, most } => {
            let n = first_byte(cell) as usize;
            least <= n && n <= most && is_zero_from(cell, n + 1)
        }
        Encoding::Arcs { most } => {
            let n = first_byte(cell) as usize;
            n <= most && is_zero_from(cell, n * 4 + 1)
        }
        Encoding::Entries { .. } => !is_empty(cell),
    }
}

// Whether a cell has a value.
#[tactic(auto, unfolding(rows_format::specs::Columns::has_value))]
pub fn has_value(presence: Presence, cell: &[u8]) -> bool
    ensures { result ≡ has_value presence cell.now }
{
    match presence {
        Presence::Required => true,
        Presence::Optional => !is_zero(cell),
        Presence::Marked => first_byte(cell) == 1,
        Presence::Never => false,
    }
}

// Whether the cell of a column can hold a value.
fn holds_value(column: &Column, cell: &[u8]) -> bool
    requires { (sound column.now.encoding ≡ true) × (length cell.now ≡ mark column.now.presence + room column.now.encoding) }
    ensures { result ≡ holds column.now.encoding (drop (mark column.now.presence) cell.now) }
{
    holds(&column.encoding, &cell[column.presence.mark()..])
}

// Whether the cell of a column is one that the reader could have stored.
// No has_value, which would have the zeros of an absent optional field gone through twice. Each arm cuts its cell, and the encoding is lent: cut before the
// match, or copied, either costs a twentieth more instructions (tried), and the check of a store's shape goes through every cell here.
#[tactic(auto, using(crate::proofs::Checking::cell_long), unfolding(rows_format::specs::Columns::well_formed_cell, rows_format::specs::Columns::has_value))]
fn cell_formed(column: &Column, row: &[u8]) -> bool
    requires { Fits (length row.now) column.now }
    ensures { result ≡ well_formed_cell column.now (cell_at column.now row.now) }
{
    match column.presence {
        Presence::Required => holds_value(column, column.cell(row)),
        Presence::Optional => {
            let cell = column.cell(row);
            is_zero(cell) || holds_value(column, cell)
        }
        Presence::Marked => {
            let cell = column.cell(row);
            if first_byte(cell) == 1 {
                holds_value(column, cell)
            } else {
                is_zero(cell)
            }
        }
        Presence::Never => is_zero(column.cell(row)),
    }
}

// Whether each cell of a row is.
fn cells_formed(format: Format, row: &[u8]) -> bool
    requires { format_width format ≤ length row.now }
    ensures { result ≡ well_formed_by (columns_of format) row.now }
{
    // A loop, no all: well_formed_by goes over the columns itself, and a closure would owe Fits for each.
    for column in columns(format) {
        if !cell_formed(column, row) {
            return false;
        }
    }
    true
}

// Whether oMObjectClass is as the other fields of the row ask.
#[tactic(auto, unfolding(crate::specs::WellFormed::is_finished))]
fn is_finished(table: TableId, row: &[u8]) -> bool
    requires { row_width table ≤ length row.now }
    ensures { result ≡ is_finished table row.now }
{
    match table {
        TableId::Attributes => is_settled(row),
        TableId::Classes => true,
    }
}

// Whether the reader could have stored a row of a table.
#[tactic(auto, unfolding(crate::specs::WellFormed::well_formed, rows_format::specs::Formats::format_width))]
pub fn well_formed(table: TableId, row: &[u8]) -> bool
    requires { row_width table ≤ length row.now }
    ensures { result ≡ well_formed table row.now }
{
    cells_formed(Format::Row(table), row) && is_finished(table, row)
}
