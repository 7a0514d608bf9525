// What no two rows may share: rules 13, 15, 16, 24 and 28. Names and identifiers are compared in place, as parts of the lent stores.
// Stores and rows are plain slices, since the functions that docs/NUMBERS.md names ask of their callers what they asked.
#![tactic(auto)]

pub mod marks;

ghost use Rattle.std.specs.Prelude.{not, ◌&&◌, ◌≡◌, ◌<◌};
ghost use Rattle.schema.specs.Numbers.{table_of, number_of, same_row};
ghost use Rattle.schema.specs.Store.{table, table_in, schema_in};
ghost use Rattle.tables.specs.Shaped.{TableShaped, Shaped};
ghost use Rattle.rules_unique.specs.Unique.{has_key, same_present, same_key, every_row, rival_in, taken, Keyed};

use prelude::part::same;
use rules_names::same_name;
use schema::attribute::{link, mapi};
use schema::number::{RowId, TableId, row_id, same_row, table_of};
use schema::row::{guid, identifier, name};
use schema::store::{row, row_count, schema_row};

// The keys of a row. A linkID or a mAPIID of 0 is absent and is shared by none.
#[derive(Clone, Copy, PartialEq, Eq)]
pub enum Key {
    Name,
    Identifier,
    Guid,
    Mapi,
    Link,
}

// Whether the rows of a table have the key.
#[tactic(auto, unfolding(crate::specs::Unique::has_key))]
pub fn has_key(key: Key, table: TableId) -> bool
    ensures { result ≡ has_key key table }
{
    match table {
        TableId::Attributes => true,
        TableId::Classes => matches!(key, Key::Name | Key::Identifier | Key::Guid),
    }
}

#[tactic(auto, unfolding(crate::specs::Unique::same_present))]
fn same_present(a: u32, b: u32) -> bool
    ensures { result ≡ same_present a b }
{
    a != 0 && a == b
}

// Whether two rows have the same key.
#[tactic(auto, unfolding(crate::specs::Unique::same_key))]
fn same_key(key: Key, a: &[u8], b: &[u8]) -> bool
    requires { Keyed a.now × Keyed b.now }
    ensures { result ≡ same_key key a.now b.now }
{
    match key {
        Key::Name => same_name(name(a), name(b)),
        Key::Identifier => same(identifier(a), identifier(b)),
        Key::Guid => same(guid(a), guid(b)),
        Key::Mapi => same_present(mapi(a), mapi(b)),
        Key::Link => same_present(link(a), link(b)),
    }
}

// Whether another row, of the table in the store, has the key of a row.
fn is_rival(store: &[u8], key: Key, id: RowId, own: &[u8], other: RowId) -> bool
    requires { TableShaped (table_of other) store.now × Keyed own.now × (number_of other < (table_in (table_of other) store.now).count) }
    ensures { result ≡ (not (same_row (table_of id) (number_of id) (table_of other) (number_of other))
        && same_key key own.now ((table_in (table_of other) store.now).row (number_of other))) }
{
    // By same_row, whose clause names table and number: with the derived equality the proof didn't close (tried).
    !same_row(id, other) && same_key(key, own, row(store, other))
}

// Whether another row of a table has the key of a row.
fn rival_in(table: TableId, store: &[u8], key: Key, id: RowId, own: &[u8]) -> bool
    requires { TableShaped table store.now × Keyed own.now }
    ensures { result ≡ rival_in every_row key table (table_in table store.now) (table_of id) (number_of id) own.now }
{
    has_key(key, table)
        && (0..row_count(table, store)).any(|j| is_rival(store, key, id, own, row_id(table, j)))
}

// Whether another row of either table has the key of a row: rules 13, 15, 16, 24 and 28.
#[tactic(auto, unfolding(crate::specs::Unique::taken))]
pub fn is_taken<'a>(attributes: &'a [u8], classes: &'a [u8], key: Key, id: RowId) -> bool
    requires { Shaped attributes.now classes.now × (number_of id < (table (table_of id) (schema_in attributes.now classes.now)).count) }
    ensures { result ≡ taken every_row key (schema_in attributes.now classes.now) (table_of id) (number_of id) }
{
    if !has_key(key, table_of(id)) {
        return false;
    }
    let own = schema_row(attributes, classes, id);
    rival_in(TableId::Attributes, attributes, key, id, own)
        || rival_in(TableId::Classes, classes, key, id, own)
}
