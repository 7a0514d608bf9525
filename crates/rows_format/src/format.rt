// The tables. specs/Formats.antt has them as document 01 writes them.
ghost use Rattle.std.specs.Prelude.{◌≡◌};
ghost use Rattle.rows_format.specs.Formats.{columns_of, format_width};

use crate::column::{Column, Encoding, Presence, Test};
use schema::layout::{
    ARC_LIMIT, CATEGORY, DEFUNCT, FIXED_AUXILIARY, FIXED_OPTIONAL, FIXED_SUPERIOR, FLAGS, GUID,
    GUID_WIDTH, IDENTIFIER, LINK, MANDATORY, MAPI, NAME, NAME_LIMIT, NAMING, OBJECT_CLASS,
    OBJECT_CLASS_LIMIT, OM_SYNTAX, OPEN_AUXILIARY, OPEN_OPTIONAL, OPEN_SUPERIOR, RANGE_LOWER,
    RANGE_UPPER, SINGLE_VALUED, SUPERCLASS, SYNTAX, row_width,
};
use schema::number::TableId;

// What a value is read as: a row of a sheet, a row that a change adds, or the fields inside another change.
#[derive(Clone, Copy)]
pub enum Format {
    Row(TableId),
    NewRow(TableId),
    // 42: the target and the ends of its range.
    Range,
    // 43 and 44: the target and its name.
    Name,
    // 45 to 48: the target alone.
    Target,
    // 49 and 4A: the target, the list and the entry.
    Entry,
}

// The cells of what a change carries, in a scratch row of their own.
pub const TARGET: usize = 0;

pub const TARGET_WIDTH: usize = TARGET + 2;

pub const NEW_LOWER: usize = TARGET_WIDTH;

pub const NEW_UPPER: usize = NEW_LOWER + 5;

pub const RANGE_WIDTH: usize = NEW_UPPER + 5;

pub const NEW_NAME: usize = TARGET_WIDTH;

pub const NAME_WIDTH: usize = NEW_NAME + 1 + NAME_LIMIT;

pub const LIST: usize = TARGET_WIDTH;

pub const ENTRY: usize = LIST + 1;

pub const ENTRY_WIDTH: usize = ENTRY + 2;

// One column of a table. A constant's value calls no function in Rattle, so a macro writes it out.
macro_rules! column {
    ($presence:ident, $tag:literal, $encoding:expr, $at:expr) => {
        Column {
            tag: $tag,
            presence: Presence::$presence,
            encoding: $encoding,
            at: $at,
        }
    };
}

// Bytes as they are.
macro_rules! bytes {
    ($len:expr) => {
        Encoding::Plain {
            len: $len,
            test: Test::Any,
        }
    };
}

const NAME_BYTES: Encoding = Encoding::Counted {
    least: 0,
    most: NAME_LIMIT,
};

const IDENTIFIER_ARCS: Encoding = Encoding::Arcs { most: ARC_LIMIT };

const OBJECT_CLASS_BYTES: Encoding = Encoding::Counted {
    least: 1,
    most: OBJECT_CLASS_LIMIT,
};

const NOT_ZERO: Encoding = Encoding::Plain {
    len: 4,
    test: Test::NotZero,
};

const CATEGORY_BYTE: Encoding = Encoding::Plain {
    len: 1,
    test: Test::Below { limit: 4 },
};

const LIST_TAG: Encoding = Encoding::Plain {
    len: 1,
    test: Test::OpenList,
};

const ATTRIBUTE_NUMBER: Encoding = Encoding::Number {
    table: TableId::Attributes,
};

const CLASS_NUMBER: Encoding = Encoding::Number {
    table: TableId::Classes,
};

const ATTRIBUTE_SET: Encoding = Encoding::Entries {
    table: TableId::Attributes,
};

const CLASS_SET: Encoding = Encoding::Entries {
    table: TableId::Classes,
};

// 05 in a row of a sheet, and in an addition.
const MAY_BE_DEFUNCT: Column = column!(Marked, 5, bytes!(0), DEFUNCT);

const NEVER_DEFUNCT: Column = column!(Never, 5, bytes!(1), DEFUNCT);

// A row: what every row begins with, 05 as given, and the columns of its own table.
macro_rules! row {
    ($defunct:expr, $($own:expr),+) => {
        [
            column!(Required, 1, NAME_BYTES, NAME),
            column!(Required, 2, IDENTIFIER_ARCS, IDENTIFIER),
            column!(Required, 3, bytes!(GUID_WIDTH), GUID),
            column!(Required, 4, bytes!(4), FLAGS),
            $defunct,
            $($own),+
        ]
    };
}

macro_rules! attribute_row {
    ($defunct:expr) => {
        row![
            $defunct,
            column!(Required, 6, bytes!(1), SYNTAX),
            column!(Required, 7, bytes!(1), OM_SYNTAX),
            column!(Optional, 8, OBJECT_CLASS_BYTES, OBJECT_CLASS),
            column!(Marked, 9, bytes!(0), SINGLE_VALUED),
            column!(Marked, 10, bytes!(4), RANGE_LOWER),
            column!(Marked, 11, bytes!(4), RANGE_UPPER),
            column!(Optional, 12, NOT_ZERO, LINK),
            column!(Optional, 13, NOT_ZERO, MAPI)
        ]
    };
}

macro_rules! class_row {
    ($defunct:expr) => {
        row![
            $defunct,
            column!(Required, 16, CATEGORY_BYTE, CATEGORY),
            column!(Required, 17, CLASS_NUMBER, SUPERCLASS),
            column!(Marked, 18, ATTRIBUTE_NUMBER, NAMING),
            column!(Optional, 19, ATTRIBUTE_SET, MANDATORY),
            column!(Optional, 20, ATTRIBUTE_SET, FIXED_OPTIONAL),
            column!(Optional, 21, ATTRIBUTE_SET, OPEN_OPTIONAL),
            column!(Optional, 22, CLASS_SET, FIXED_AUXILIARY),
            column!(Optional, 23, CLASS_SET, OPEN_AUXILIARY),
            column!(Optional, 24, CLASS_SET, FIXED_SUPERIOR),
            column!(Optional, 25, CLASS_SET, OPEN_SUPERIOR)
        ]
    };
}

static ATTRIBUTE_ROW: [Column; 13] = attribute_row!(MAY_BE_DEFUNCT);

static CLASS_ROW: [Column; 15] = class_row!(MAY_BE_DEFUNCT);

static NEW_ATTRIBUTE_ROW: [Column; 13] = attribute_row!(NEVER_DEFUNCT);

static NEW_CLASS_ROW: [Column; 15] = class_row!(NEVER_DEFUNCT);

// 20 in a change: the row it changes.
const TARGET_NUMBER: Column = column!(Required, 32, bytes!(2), TARGET);

static NEW_RANGE: [Column; 3] = [
    TARGET_NUMBER,
    column!(Marked, 10, bytes!(4), NEW_LOWER),
    column!(Marked, 11, bytes!(4), NEW_UPPER),
];

static RENAMING: [Column; 2] = [TARGET_NUMBER, column!(Required, 1, NAME_BYTES, NEW_NAME)];

static TARGET_ALONE: [Column; 1] = [TARGET_NUMBER];

static LIST_ENTRY: [Column; 3] = [
    TARGET_NUMBER,
    column!(Required, 33, LIST_TAG, LIST),
    column!(Required, 34, bytes!(2), ENTRY),
];

// The columns of a format.
pub fn columns(format: Format) -> &'static [Column]
    ensures { result.now ≡ columns_of format }
{
    match format {
        Format::Row(TableId::Attributes) => &ATTRIBUTE_ROW,
        Format::Row(TableId::Classes) => &CLASS_ROW,
        Format::NewRow(TableId::Attributes) => &NEW_ATTRIBUTE_ROW,
        Format::NewRow(TableId::Classes) => &NEW_CLASS_ROW,
        Format::Range => &NEW_RANGE,
        Format::Name => &RENAMING,
        Format::Target => &TARGET_ALONE,
        Format::Entry => &LIST_ENTRY,
    }
}

// How many bytes the row has that a value is read into.
#[tactic(auto, unfolding(crate::specs::Formats::format_width))]
pub fn format_width(format: Format) -> usize
    ensures { result ≡ format_width format }
{
    match format {
        Format::Row(table) | Format::NewRow(table) => row_width(table),
        Format::Range => RANGE_WIDTH,
        Format::Name => NAME_WIDTH,
        Format::Target => TARGET_WIDTH,
        Format::Entry => ENTRY_WIDTH,
    }
}
