// The layout of the stores. Each field begins where the one before it ends; specs/Layout.antt has the same names.
ghost use Rattle.std.specs.Prelude.{◌≡◌};
ghost use Rattle.schema.specs.Layout.{set_width, row_width, store_length};

use crate::number::{AttributeNumber, ClassNumber, TableId};

// Limits of fields.
pub const NAME_LIMIT: usize = 64;

pub const ARC_LIMIT: usize = 16;

pub const ARC_WIDTH: usize = 4;

pub const GUID_WIDTH: usize = 16;

pub const OBJECT_CLASS_LIMIT: usize = 16;

// Sets: one bit for each number below the limit.
pub const CLASS_SET: usize = ClassNumber::LIMIT / 8;

pub const ATTRIBUTE_SET: usize = AttributeNumber::LIMIT / 8;

// What every row begins with.
pub const NAME: usize = 0;

pub const IDENTIFIER: usize = NAME + 1 + NAME_LIMIT;

pub const GUID: usize = IDENTIFIER + 1 + ARC_WIDTH * ARC_LIMIT;

pub const FLAGS: usize = GUID + GUID_WIDTH;

pub const DEFUNCT: usize = FLAGS + 4;

pub const COMMON_WIDTH: usize = DEFUNCT + 1;

// The rest of an attribute row.
pub const SYNTAX: usize = COMMON_WIDTH;

pub const OM_SYNTAX: usize = SYNTAX + 1;

pub const OBJECT_CLASS: usize = OM_SYNTAX + 1;

pub const SINGLE_VALUED: usize = OBJECT_CLASS + 1 + OBJECT_CLASS_LIMIT;

pub const RANGE_LOWER: usize = SINGLE_VALUED + 1;

pub const RANGE_UPPER: usize = RANGE_LOWER + 5;

pub const LINK: usize = RANGE_UPPER + 5;

pub const MAPI: usize = LINK + 4;

pub const ATTRIBUTE_WIDTH: usize = MAPI + 4;

// The rest of a class row.
pub const CATEGORY: usize = COMMON_WIDTH;

pub const SUPERCLASS: usize = CATEGORY + 1;

pub const NAMING: usize = SUPERCLASS + 1;

pub const MANDATORY: usize = NAMING + 2;

pub const FIXED_OPTIONAL: usize = MANDATORY + ATTRIBUTE_SET;

pub const OPEN_OPTIONAL: usize = FIXED_OPTIONAL + ATTRIBUTE_SET;

pub const FIXED_AUXILIARY: usize = OPEN_OPTIONAL + ATTRIBUTE_SET;

pub const OPEN_AUXILIARY: usize = FIXED_AUXILIARY + CLASS_SET;

pub const FIXED_SUPERIOR: usize = OPEN_AUXILIARY + CLASS_SET;

pub const OPEN_SUPERIOR: usize = FIXED_SUPERIOR + CLASS_SET;

pub const CLASS_WIDTH: usize = OPEN_SUPERIOR + CLASS_SET;

// A row of the closure store: the three kept sets of a class, side by side.
pub const REACHED: usize = 0;

pub const DEMANDED: usize = REACHED + CLASS_SET;

pub const ALLOWED: usize = DEMANDED + ATTRIBUTE_SET;

pub const CLOSURE_WIDTH: usize = ALLOWED + ATTRIBUTE_SET;

// The stores: the count stands before the rows.
pub const ROWS: usize = 2;

// How long each store is.
pub const ATTRIBUTES_LENGTH: usize = ROWS + ATTRIBUTE_WIDTH * AttributeNumber::LIMIT;

pub const CLASSES_LENGTH: usize = ROWS + CLASS_WIDTH * ClassNumber::LIMIT;

pub const CLOSURE_LENGTH: usize = CLOSURE_WIDTH * ClassNumber::LIMIT;

// How wide a set of a table's numbers is. This and the two below are no methods of TableId: public, with the names of specs/Layout.antt.
pub fn set_width(table: TableId) -> usize
    ensures { result ≡ set_width table }
{
    match table {
        TableId::Attributes => ATTRIBUTE_SET,
        TableId::Classes => CLASS_SET,
    }
}

// How wide a row of a table is, and how long its store.
pub fn row_width(table: TableId) -> usize
    ensures { result ≡ row_width table }
{
    match table {
        TableId::Attributes => ATTRIBUTE_WIDTH,
        TableId::Classes => CLASS_WIDTH,
    }
}

pub fn store_length(table: TableId) -> usize
    ensures { result ≡ store_length table }
{
    match table {
        TableId::Attributes => ATTRIBUTES_LENGTH,
        TableId::Classes => CLASSES_LENGTH,
    }
}
