// The sheet of a schema: how long it is, and its bytes written into a lent output.
// Writable stays a clause, output and place stay apart: write_sheet, which docs/proofs/CALLS.md names, is lent plain slices.
#![tactic(auto)]

ghost use Rattle.std.specs.Prelude.{◌≡◌, ◌+◌, ◌≤◌, length};
ghost use Rattle.prelude.specs.Part.{splice};
ghost use Rattle.prelude.specs.Written.{WrittenAt};
ghost use Rattle.schema.specs.declared.number.TableId.TheVariants.{Attributes, Classes};
ghost use Rattle.schema.specs.Store.{table_in, schema_in};
ghost use Rattle.sheet_read.specs.Stopping.{row_tag};
ghost use Rattle.sheet_write.specs.Writing.{heading, row_field, row_fields, sheet_bytes, WritableRow, Writable};

use rows_format::format::Format;
use rows_write::write::{row_length, write_row};
use schema::number::{TableId, row_id};
use schema::store::{row, row_count};
use sheet_read::read::{ATTRIBUTE, CLASS, HEADING};
use wire::{HEADER, write_field, write_header};

// The tag of a table's rows.
fn row_tag(table: TableId) -> u8
    ensures { result ≡ row_tag table }
{
    match table {
        TableId::Attributes => ATTRIBUTE,
        TableId::Classes => CLASS,
    }
}

// How long the field of a row is.
fn row_field_length(table: TableId, row: &[u8]) -> usize
    requires { WritableRow table row.now }
    ensures { result ≡ length (row_field table row.now) }
{
    HEADER + row_length(Format::Row(table), row)
}

// How long the fields of a table's rows are.
// One counts and one writes: a function of both would need an output that only counts, with laws of its own.
fn row_fields_length(table: TableId, store: &[u8]) -> usize
    requires { Writable table store.now }
    ensures { result ≡ length (row_fields table (table_in table store.now)) }
{
    let mut total = 0;
    for k in 0..row_count(table, store) {
        total += row_field_length(table, row(store, row_id(table, k)));
    }
    total
}

// How long the sheet of the schema in two stores is.
pub fn sheet_length(attributes: &[u8], classes: &[u8]) -> usize
    requires { Writable Attributes attributes.now × Writable Classes classes.now }
    ensures { result ≡ length (sheet_bytes (schema_in attributes.now classes.now)) }
{
    let before = row_fields_length(TableId::Attributes, attributes);
    let behind = row_fields_length(TableId::Classes, classes);
    HEADER + 1 + before + behind
}

// Writes the field of a row at a place, and gives the place after it.
fn put_row_field(table: TableId, row: &[u8], out: &mut [u8], at: usize) -> usize
    requires { WritableRow table row.now × (at + length (row_field table row.now) ≤ length out.old) }
    ensures { WrittenAt (row_field table row.now) at result out.old out.new }
{
    let n = row_length(Format::Row(table), row);
    write_header(out, at, row_tag(table), n as u16);
    write_row(Format::Row(table), row, out, at + HEADER)
}

// Writes the fields of a table's rows at a place, and gives the place after them.
fn put_row_fields(table: TableId, store: &[u8], out: &mut [u8], at: usize) -> usize
    requires { Writable table store.now × (at + length (row_fields table (table_in table store.now)) ≤ length out.old) }
    ensures { WrittenAt (row_fields table (table_in table store.now)) at result out.old out.new }
{
    let mut next = at;
    for k in 0..row_count(table, store) {
        next = put_row_field(table, row(store, row_id(table, k)), out, next);
    }
    next
}

// Writes the heading, and gives the place after it.
fn put_heading(out: &mut [u8]) -> usize
    requires { length heading ≤ length out.old }
    ensures { WrittenAt heading 0 result out.old out.new }
{
    write_field(out, 0, HEADING, &[1]);
    HEADER + 1
}

// Writes the sheet of the schema in two stores to the front of out.
pub fn write_sheet(attributes: &[u8], classes: &[u8], out: &mut [u8])
    requires { Writable Attributes attributes.now × Writable Classes classes.now
        × (length (sheet_bytes (schema_in attributes.now classes.now)) ≤ length out.old) }
    ensures { out.new ≡ splice 0 (sheet_bytes (schema_in attributes.now classes.now)) out.old }
{
    let first = put_heading(out);
    let next = put_row_fields(TableId::Attributes, attributes, out, first);
    put_row_fields(TableId::Classes, classes, out, next);
}
