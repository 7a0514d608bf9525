// Reads the value of a row or of a change by its table.
ghost use Rattle.std.specs.Prelude.{false, ◌≡◌, ◌≤◌, length};
ghost use Rattle.schema.specs.Layout.{row_width};
ghost use Rattle.rows_format.specs.Formats.{columns_of, format_width};
ghost use Rattle.rows_read.specs.Reading.{read_by};
ghost use Rattle.rows_read.specs.ObjectClass.{finished, read_row, finished_row};

use crate::field::{Progress, take_field};
use crate::object_class::settle;
use rows_format::format::{Format, columns};
use schema::number::TableId;
use wire::BadField;

// Reads the fields of the value s[start..end). A field that cannot be accepted, or that is left over, is told by its tag, one that is missing by the end. The
// row holds what was stored before a refusal.
fn read_fields(
    format: Format,
    s: &[u8],
    start: usize,
    end: usize,
    row: &mut [u8],
) -> Result<(), BadField>
    requires { (start ≤ end) × (end ≤ length s.now) × (format_width format ≤ length row.old) }
    ensures { (result ≡ (read_by s.now end (columns_of format) start false row.old).answer)
        × (row.new ≡ (read_by s.now end (columns_of format) start false row.old).row) }
{
    let mut progress = Progress {
        at: start,
        missing: false,
    };
    for column in columns(format) {
        progress = take_field(s, progress, end, *column, row)?;
    }
    if progress.at != end {
        return Err(BadField { at: progress.at });
    }
    if progress.missing {
        return Err(BadField { at: end });
    }
    Ok(())
}

// What is made of the fields of a row once they are read.
#[tactic(auto, unfolding(crate::specs::ObjectClass::finished_row))]
fn finish_row(table: TableId, row: &mut [u8])
    requires { row_width table ≤ length row.old }
    ensures { row.new ≡ finished_row table row.old }
{
    match table {
        TableId::Attributes => settle(row),
        TableId::Classes => {}
    }
}

// And of any value.
#[tactic(auto, unfolding(crate::specs::ObjectClass::finished, rows_format::specs::Formats::format_width))]
fn finish(format: Format, row: &mut [u8])
    requires { format_width format ≤ length row.old }
    ensures { row.new ≡ finished format row.old }
{
    match format {
        Format::Row(table) | Format::NewRow(table) => finish_row(table, row),
        Format::Range | Format::Name | Format::Target | Format::Entry => {}
    }
}

// Reads the value s[start..end) as a row of a format.
// Bytes and places stand apart, no type of a value in its sheet: docs/NUMBERS.md names this function, which takes them so.
pub fn read_row(
    format: Format,
    s: &[u8],
    start: usize,
    end: usize,
    row: &mut [u8],
) -> Result<(), BadField>
    requires { (start ≤ end) × (end ≤ length s.now) × (format_width format ≤ length row.old) }
    ensures { (result ≡ (read_row format s.now start end row.old).answer)
        × (row.new ≡ (read_row format s.now start end row.old).row) }
{
    read_fields(format, s, start, end, row)?;
    finish(format, row);
    Ok(())
}
