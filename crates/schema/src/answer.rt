// The answer of a call. Document 01: "Every answer has a number, a table (0 none, 1 attribute, 2 class) and a place; what is not named below is 0."
// Answers are made by these constructors alone.
ghost use Rattle.std.specs.Prelude.{◌≡◌};
ghost use Rattle.schema.specs.Numbers.{table_of, number_of};
ghost use Rattle.schema.specs.Answers.{table_number, passed, done, changed, refused, unreadable, full, short_output, broken_by};

use crate::number::{RowId, TableId, number_of, row_limit, table_of};
use crate::refusal::{DONE, Refusal};

// Numbers for number and table: keeper_c gives them to C, and the theorems on calls speak of them.
#[derive(Clone, Copy)]
pub struct Answer {
    pub number: u8,
    pub table: u8,
    pub place: usize,
    pub visits: usize,
}

// The number of a table in an answer; 0 stands for none.
// No From, no discriminants of TableId: 1 and 2 are the answer's numbers for C, beside its 0 for no table.
fn table_number(table: TableId) -> u8
    ensures { result ≡ table_number table }
{
    match table {
        TableId::Attributes => 1,
        TableId::Classes => 2,
    }
}

impl Answer {
    const NO_TABLE: u8 = 0;

    // Done, and nothing more to say.
    pub fn passed() -> Answer
        ensures { result ≡ passed }
    {
        Answer::done(0)
    }

    // Done, with a place: a length, or a number of steps.
    pub fn done(place: usize) -> Answer
        ensures { result ≡ done place }
    {
        Answer {
            number: DONE,
            table: Answer::NO_TABLE,
            place,
            visits: 0,
        }
    }

    // Done; the row changed or added.
    pub fn changed(id: RowId) -> Answer
        ensures { result ≡ changed (table_of id) (number_of id) }
    {
        Answer {
            number: DONE,
            table: table_number(table_of(id)),
            place: number_of(id),
            visits: 0,
        }
    }

    // Refused by a number that names no table and no place.
    pub fn refused(number: u8) -> Answer
        ensures { result ≡ refused number }
    {
        Answer {
            number,
            table: Answer::NO_TABLE,
            place: 0,
            visits: 0,
        }
    }

    // Sheet or change unreadable at a byte offset.
    pub fn unreadable(place: usize) -> Answer
        ensures { result ≡ unreadable place }
    {
        Answer {
            number: Refusal::Unreadable.number(),
            table: Answer::NO_TABLE,
            place,
            visits: 0,
        }
    }

    // No free row in a table: its limit is the place.
    pub fn full(table: TableId) -> Answer
        ensures { result ≡ full table }
    {
        Answer {
            number: Refusal::NoFreeRow.number(),
            table: table_number(table),
            place: row_limit(table),
            visits: 0,
        }
    }

    // The output of a write is too short; the length needed is the place.
    pub fn short_output(needed: usize) -> Answer
        ensures { result ≡ short_output needed }
    {
        Answer {
            number: Refusal::ShortOutput.number(),
            table: Answer::NO_TABLE,
            place: needed,
            visits: 0,
        }
    }

    // A row breaks the rule of a number.
    pub fn broken_by(number: u8, id: RowId) -> Answer
        ensures { result ≡ broken_by number (table_of id) (number_of id) }
    {
        Answer {
            number,
            table: table_number(table_of(id)),
            place: number_of(id),
            visits: 0,
        }
    }
}
