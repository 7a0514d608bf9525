// Writes the fields of a row.
ghost use Rattle.std.specs.Prelude.{true, ◌≡◌, ◌+◌, ◌≤◌, length};
ghost use Rattle.prelude.specs.Part.{splice};
ghost use Rattle.wire.specs.Wire.{field_bytes};
ghost use Rattle.rows_format.specs.Encodings.{stored, room, holds, sound};
ghost use Rattle.rows_format.specs.Columns.{cell_at, well_formed_cell, well_formed_by, field_of, write_by, Fits};
ghost use Rattle.rows_format.specs.Formats.{columns_of, format_width};

use crate::value::{value_length, write_value};
use rows_format::column::{Column, Encoding};
use rows_format::format::{Format, columns};
use rows_read::wellformed::has_value;
use wire::{HEADER, write_header};

// Writes a field whose value a cell stands for, and gives the place after it.
fn put_field(tag: u8, encoding: Encoding, cell: &[u8], out: &mut [u8], at: usize) -> usize
    requires { (sound encoding ≡ true) × (length cell.now ≡ room encoding) × (holds encoding cell.now ≡ true)
        × (at + length (field_bytes tag (stored encoding cell.now)) ≤ length out.old) }
    ensures { (result ≡ at + length (field_bytes tag (stored encoding cell.now)))
        × (out.new ≡ splice at (field_bytes tag (stored encoding cell.now)) out.old) }
{
    let n = value_length(encoding, cell);
    write_header(out, at, tag, n as u16);
    let start = at + HEADER;
    write_value(encoding, cell, out, start);
    start + n
}

// How long the field of a column is, written.
// One counts and one writes: a function of both would need an output that only counts, with laws of its own.
fn field_length(column: Column, row: &[u8]) -> usize
    requires { Fits (length row.now) column × (well_formed_cell column (cell_at column row.now) ≡ true) }
    ensures { result ≡ length (field_of column row.now) }
{
    let cell = column.cell(row);
    if !has_value(column.presence, cell) {
        return 0;
    }
    HEADER + value_length(column.encoding, &cell[column.presence.mark()..])
}

// Writes the field of a column, if the row has it, and gives the place after it.
fn write_field(column: Column, row: &[u8], out: &mut [u8], at: usize) -> usize
    requires { Fits (length row.now) column × (well_formed_cell column (cell_at column row.now) ≡ true)
        × (at + length (field_of column row.now) ≤ length out.old) }
    ensures { (result ≡ at + length (field_of column row.now))
        × (out.new ≡ splice at (field_of column row.now) out.old) }
{
    let cell = column.cell(row);
    if !has_value(column.presence, cell) {
        return at;
    }
    put_field(
        column.tag,
        column.encoding,
        &cell[column.presence.mark()..],
        out,
        at,
    )
}

// How long the value of a row is, written.
pub fn row_length(format: Format, row: &[u8]) -> usize
    requires { (format_width format ≤ length row.now) × (well_formed_by (columns_of format) row.now ≡ true) }
    ensures { result ≡ length (write_by (columns_of format) row.now) }
{
    let mut n = 0;
    // No `sum`: what bounds it is a law of each column's field, not of the list.
    for column in columns(format) {
        n += field_length(*column, row);
    }
    n
}

// Writes the value of a row at a place of out, and gives the place after it.
pub fn write_row(format: Format, row: &[u8], out: &mut [u8], at: usize) -> usize
    requires { (format_width format ≤ length row.now) × (well_formed_by (columns_of format) row.now ≡ true)
        × (at + length (write_by (columns_of format) row.now) ≤ length out.old) }
    ensures { (result ≡ at + length (write_by (columns_of format) row.now))
        × (out.new ≡ splice at (write_by (columns_of format) row.now) out.old) }
{
    let mut next = at;
    for column in columns(format) {
        next = write_field(*column, row, out, next);
    }
    next
}
