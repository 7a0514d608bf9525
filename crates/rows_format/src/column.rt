// The encodings of fields: which values each takes, and how wide the cell is that stores one.
ghost use Rattle.std.specs.Prelude.{◌≡◌, ◌≤◌, length};
ghost use Rattle.rows_format.specs.Encodings.{room};
ghost use Rattle.rows_format.specs.Columns.{mark, required, possible, column_width, cell_at, Fits};

use prelude::part::part_of;
use schema::layout::set_width;
use schema::number::TableId;

// What is asked of bytes that are stored as they are.
#[derive(Clone, Copy)]
pub enum Test {
    Any,
    // A byte below the limit.
    Below { limit: usize },
    // Not all zero.
    NotZero,
    // The tag of an open list: 15, 17 or 19.
    OpenList,
}

// What values a field takes, and how they are stored.
#[derive(Clone, Copy)]
pub enum Encoding {
    // Exactly len bytes that pass a test, stored as they are.
    Plain { len: usize, test: Test },
    // A number of two bytes that a row of the table can have, stored as one byte.
    Number { table: TableId },
    // From least to most bytes, stored after their number and zero padded.
    Counted { least: usize, most: usize },
    // At most so many arcs of four bytes, stored after their number and zero padded.
    Arcs { most: usize },
    // Numbers of two bytes, strictly rising, at least one, stored as a set of the table's numbers.
    Entries { table: TableId },
}

// Whether a field must be there, and how the row tells that it is not.
#[derive(Clone, Copy)]
pub enum Presence {
    Required,
    // The cell of an absent field is zero, and no value of it is stored as zeros.
    Optional,
    // A byte that is 1 stands before the stored value; the cell of an absent field is zero.
    Marked,
    // The field may not be there; its cell is zero.
    Never,
}

// One field.
#[derive(Clone, Copy)]
pub struct Column {
    pub tag: u8,
    pub presence: Presence,
    pub encoding: Encoding,
    pub at: usize,
}

impl Encoding {
    // How many bytes a stored value has.
    #[tactic(auto, unfolding(crate::specs::Encodings::room))]
    pub fn room(self) -> usize
        requires { room self ≤ 255 }
        ensures { result ≡ room self }
    {
        match self {
            Encoding::Plain { len, .. } => len,
            Encoding::Number { .. } => 1,
            Encoding::Counted { most, .. } => most + 1,
            Encoding::Arcs { most } => most * 4 + 1,
            Encoding::Entries { table } => set_width(table),
        }
    }
}

impl Presence {
    // How many bytes stand before a stored value.
    #[tactic(auto, unfolding(crate::specs::Columns::mark))]
    pub fn mark(self) -> usize
        ensures { result ≡ mark self }
    {
        match self {
            Presence::Marked => 1,
            _ => 0,
        }
    }

    // Whether a field that is not there is missing.
    #[tactic(auto, unfolding(crate::specs::Columns::required))]
    pub fn is_required(self) -> bool
        ensures { result ≡ required self }
    {
        matches!(self, Presence::Required)
    }

    // Whether a field may be there.
    #[tactic(auto, unfolding(crate::specs::Columns::possible))]
    pub fn is_possible(self) -> bool
        ensures { result ≡ possible self }
    {
        !matches!(self, Presence::Never)
    }
}

impl Column {
    // The cell of the column in a row.
    // Fits stays a clause: it ties a column to the length of the row that is lent, so a type would be built at each call.
    #[tactic(auto, using(crate::proofs::ColumnsLaws::width_small), unfolding(crate::specs::Columns::cell_at))]
    pub fn cell(self, row: &[u8]) -> &[u8]
        requires { Fits (length row.now) self }
        ensures { result.now ≡ cell_at self row.now }
    {
        part_of(row, self.at, self.width())
    }

    // How wide the cell of a column is.
    #[tactic(auto, unfolding(crate::specs::Columns::column_width))]
    pub fn width(self) -> usize
        requires { column_width self ≤ 255 }
        ensures { result ≡ column_width self }
    {
        self.presence.mark() + self.encoding.room()
    }
}
