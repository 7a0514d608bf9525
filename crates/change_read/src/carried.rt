// What a change that was read carries, in the scratch row that it was read into.
ghost use Rattle.std.specs.Prelude.{◌≡◌, ◌≤◌, length};
ghost use Rattle.schema.specs.Layout.{row_width};
ghost use Rattle.rows_format.specs.Formats.{target_width, range_width, name_width, entry_width};
ghost use Rattle.change_read.specs.Carried.{target_of, list_of, entry_of, new_name, new_range, added_row};

use prelude::number::{byte_at, read_u16};
use prelude::part::part_of;
use rows_format::format::{ENTRY, LIST, NEW_LOWER, NEW_NAME, TARGET};
use schema::layout::{NAME_LIMIT, row_width};
use schema::number::TableId;

// The open lists of a class.
#[derive(Clone, Copy)]
pub enum OpenList {
    Optional,
    Auxiliary,
    Superior,
}

// The tags of the first two.
pub const OPTIONAL_LIST: u8 = 0x15;

pub const AUXILIARY_LIST: u8 = 0x17;

// The row that is changed: an attribute's or a class's number, as the change says.
pub fn target_of(row: &[u8]) -> u16
    requires { target_width ≤ length row.now }
    ensures { result ≡ target_of row.now }
{
    read_u16(row, TARGET)
}

// The list that an entry is added to or removed from.
// No TryFrom: a value that was read has one of the three tags, so each byte gives a list.
#[tactic(auto, unfolding(crate::specs::Carried::open_list))]
pub fn list_of(row: &[u8]) -> OpenList
    requires { entry_width ≤ length row.now }
    ensures { result ≡ list_of row.now }
{
    match byte_at(row, LIST) {
        OPTIONAL_LIST => OpenList::Optional,
        AUXILIARY_LIST => OpenList::Auxiliary,
        _ => OpenList::Superior,
    }
}

// That entry.
pub fn entry_of(row: &[u8]) -> u16
    requires { entry_width ≤ length row.now }
    ensures { result ≡ entry_of row.now }
{
    read_u16(row, ENTRY)
}

// The cell of the new display name.
pub fn new_name(row: &[u8]) -> &[u8]
    requires { name_width ≤ length row.now }
    ensures { result.now ≡ new_name row.now }
{
    part_of(row, NEW_NAME, 1 + NAME_LIMIT)
}

// The cells of the new range's ends, side by side.
pub fn new_range(row: &[u8]) -> &[u8]
    requires { range_width ≤ length row.now }
    ensures { result.now ≡ new_range row.now }
{
    part_of(row, NEW_LOWER, 10)
}

// The added row.
pub fn added_row(table: TableId, row: &[u8]) -> &[u8]
    requires { row_width table ≤ length row.now }
    ensures { result.now ≡ added_row table row.now }
{
    part_of(row, 0, row_width(table))
}
