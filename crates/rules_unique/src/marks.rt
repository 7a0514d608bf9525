// Whether any key is taken, for all rows in one pass. Rows that have the same key have the same mark, so that a row whose mark was not met before has no
// rival among the rows before it; only a row whose mark was met is compared with all others.
ghost use Rattle.std.specs.Prelude.{◌&&◌, ◌≡◌, ◌<◌, length};
ghost use Rattle.prelude.specs.Part.{zeros};
ghost use Rattle.schema.specs.Numbers.{table_of, number_of};
ghost use Rattle.schema.specs.Store.{table, schema_in};
ghost use Rattle.tables.specs.Shaped.{Shaped};
ghost use Rattle.rules_unique.specs.Unique.{every_row, taken, Keyed};
ghost use Rattle.rules_unique.specs.Marks.{absent, any_taken, key_mark, marks_width, mark_of, met, place_count};

use crate::{Key, has_key, is_taken};
use schema::attribute::{link, mapi};
use schema::number::{RowId, TableId, place_id};
use schema::row::{guid, identifier, name};
use schema::store::{row_count, schema_row};

// So many marks there are, and so many bytes hold them.
const MARKS: usize = 16384;

const MARKS_WIDTH: usize = MARKS / 8;

// What counts of a byte: all of it, or what a letter has in common with the other of its case.
const WHOLE: u8 = 255;

const CASELESS: u8 = 31;

// The mark of some bytes, of each of which only some digits count.
fn mark_of(s: &[u8], mask: u8) -> usize
    ensures { result ≡ mark_of mask (length s.now) s.now }
{
    let mut mark = 0;
    for b in s {
        mark = (mark * 31 + (*b & mask) as usize) % MARKS;
    }
    mark
}

// The mark of a row's key.
#[tactic(auto, unfolding(crate::specs::Marks::key_mark))]
fn key_mark(key: Key, row: &[u8]) -> usize
    requires { Keyed row.now }
    ensures { result ≡ key_mark key row.now }
{
    match key {
        Key::Name => mark_of(name(row), CASELESS),
        Key::Identifier => mark_of(identifier(row), WHOLE),
        Key::Guid => mark_of(guid(row), WHOLE),
        Key::Mapi => mapi(row) as usize % MARKS,
        Key::Link => link(row) as usize % MARKS,
    }
}

// Whether a row has no value for the key.
#[tactic(auto, unfolding(crate::specs::Marks::absent))]
fn is_absent(key: Key, row: &[u8]) -> bool
    requires { Keyed row.now }
    ensures { result ≡ absent key row.now }
{
    match key {
        Key::Name | Key::Identifier | Key::Guid => false,
        Key::Mapi => mapi(row) == 0,
        Key::Link => link(row) == 0,
    }
}

// Whether a row has the key, and its mark was met before.
#[tactic(auto, unfolding(crate::specs::Marks::met))]
fn is_met(key: Key, row: &[u8], mark: usize, marks: &[u8]) -> bool
    requires { Keyed row.now }
    ensures { result ≡ met key row.now mark marks.now }
{
    !is_absent(key, row) && sets::has(marks, mark)
}

// How many rows have the key.
#[tactic(auto, unfolding(crate::specs::Marks::place_count))]
fn place_count(attributes: &[u8], classes: &[u8], key: Key) -> usize
    requires { Shaped attributes.now classes.now }
    ensures { result ≡ place_count key (schema_in attributes.now classes.now) }
{
    let n = row_count(TableId::Attributes, attributes);
    if has_key(key, TableId::Classes) {
        n + row_count(TableId::Classes, classes)
    } else {
        n
    }
}

// Whether the mark of a row's key was met before, and another row has the key.
fn is_repeated<'a>(
    attributes: &'a [u8],
    classes: &'a [u8],
    key: Key,
    id: RowId,
    mark: usize,
    marks: &[u8],
) -> bool
    requires { Shaped attributes.now classes.now × (number_of id < (table (table_of id) (schema_in attributes.now classes.now)).count) }
    ensures { result ≡ (met key ((table (table_of id) (schema_in attributes.now classes.now)).row (number_of id)) mark
        marks.now && taken every_row key (schema_in attributes.now classes.now) (table_of id) (number_of id)) }
{
    is_met(key, schema_row(attributes, classes, id), mark, marks)
        && is_taken(attributes, classes, key, id)
}

// Whether some row has the key of another, with no mark met before. The marks are lent bytes of fixed size: no heap.
fn any_repeated<'a>(attributes: &'a [u8], classes: &'a [u8], key: Key, marks: &mut [u8]) -> bool
    requires { Shaped attributes.now classes.now × (marks.old ≡ zeros marks_width) }
    ensures { result ≡ any_taken key (schema_in attributes.now classes.now) }
{
    let first = row_count(TableId::Attributes, attributes);
    let count = place_count(attributes, classes, key);
    for p in 0..count {
        let id = place_id(first, p);
        let mark = key_mark(key, schema_row(attributes, classes, id));
        if is_repeated(attributes, classes, key, id, mark, marks) {
            return true;
        }
        sets::insert(marks, mark);
    }
    false
}

// Whether some row of either table has the key of another.
#[tactic(auto, unfolding(prelude::specs::Part::zeros))]
pub fn any_taken<'a>(attributes: &'a [u8], classes: &'a [u8], key: Key) -> bool
    requires { Shaped attributes.now classes.now }
    ensures { result ≡ any_taken key (schema_in attributes.now classes.now) }
{
    let mut marks = [0u8; MARKS_WIDTH];
    any_repeated(attributes, classes, key, &mut marks)
}
