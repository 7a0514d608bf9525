// Rules 17, 18 and 23: what a class row names is live, its superclass is earlier, and its naming attribute can name.
ghost use Rattle.std.specs.Prelude.{not, ◌≡◌, ◌+◌, ◌*◌, ◌/◌, ◌≤◌, ◌<◌, eqb, length};
ghost use Rattle.prelude.specs.Below.{any_below};
ghost use Rattle.schema.specs.Numbers.{class_limit, limit, table_of, number_of};
ghost use Rattle.schema.specs.Layout.{attribute_set, class_set, class_width};
ghost use Rattle.schema.specs.ClassRow.{superclass_of, naming_of};
ghost use Rattle.schema.specs.Store.{table_in};
ghost use Rattle.schema.specs.declared.number.TableId.TheVariants.{Attributes, Classes};
ghost use Rattle.tables.specs.Shaped.{TableShaped};
ghost use Rattle.rules_class.specs.Blank.{named_elsewhere, names_none};
ghost use Rattle.rules_class.specs.Live.{names_dead, not_live, superclass_late, class_wrong, lists_itself, naming_wrong};

use crate::blank::{any_by_bytes, is_blank};
use prelude::number::byte_at;
use schema::attribute::{is_single_valued, syntax};
use schema::class::{
    fixed_auxiliary, fixed_optional, fixed_superior, mandatory, naming_attribute, open_auxiliary,
    open_optional, open_superior, superclass,
};
use schema::number::{ClassNumber, RowId, TableId, row_id, row_limit};
use schema::store::{attribute_row, class_row, row_count};
use tables::live::is_live;
use tables::named::{ClassList, is_listed, is_naming};

// Whether the row names a row that is not live for it.
#[tactic(auto, unfolding(crate::specs::Live::names_dead))]
fn names_dead(store: &[u8], row: &[u8], id: RowId) -> bool
    requires { TableShaped (table_of id) store.now × (class_width ≤ length row.now) × (number_of id < limit (table_of id)) }
    ensures { result ≡ names_dead (table_of id) (table_in (table_of id) store.now) row.now (number_of id) }
{
    is_naming(row, id) && !is_live(store, row, id)
}

// Whether the naming attribute of a row is none of the eight of a byte.
#[tactic(auto, unfolding(crate::specs::Blank::named_elsewhere))]
fn named_elsewhere(row: &[u8], at: usize) -> bool
    requires { class_width ≤ length row.now }
    ensures { result ≡ named_elsewhere (naming_of row.now) at }
{
    naming_attribute(row).is_none_or(|n| n.0 / 8 != at)
}

// Whether a row names none of the eight attributes of a byte. Apart from names_no_class: they look at other fields, and what both do is is_blank.
#[tactic(auto, unfolding(crate::specs::Blank::names_none))]
fn names_no_attribute(row: &[u8], at: usize) -> bool
    requires { (class_width ≤ length row.now) × (at < attribute_set) }
    ensures { result ≡ names_none Attributes row.now at }
{
    is_blank(mandatory(row), fixed_optional(row), at)
        && (byte_at(open_optional(row), at) == 0 && named_elsewhere(row, at))
}

// Whether the superclass of a row is none of the eight classes of a byte.
fn superclass_elsewhere(row: &[u8], at: usize) -> bool
    requires { (class_width ≤ length row.now) × (at < class_set) }
    ensures { result ≡ not (eqb (superclass_of row.now / 8) at) }
{
    superclass(row).is_none_or(|s| s.0 / 8 != at)
}

// Whether a row names none of the eight classes of a byte.
#[tactic(auto, unfolding(crate::specs::Blank::names_none))]
fn names_no_class(row: &[u8], at: usize) -> bool
    requires { (class_width ≤ length row.now) × (at < class_set) }
    ensures { result ≡ names_none Classes row.now at }
{
    is_blank(fixed_auxiliary(row), open_auxiliary(row), at)
        && (is_blank(fixed_superior(row), open_superior(row), at) && superclass_elsewhere(row, at))
}

// Whether a row names none of the eight rows of a byte.
fn names_none(table: TableId, row: &[u8], at: usize) -> bool
    requires { (class_width ≤ length row.now) × (at * 8 < limit table) }
    ensures { result ≡ names_none table row.now at }
{
    match table {
        TableId::Attributes => names_no_attribute(row, at),
        TableId::Classes => names_no_class(row, at),
    }
}

// Whether the row names a row of a table that is not live for it: rule 17, and rule 18 in part. Most bytes of the lists are blank.
pub fn not_live(table: TableId, store: &[u8], row: &[u8]) -> bool
    requires { TableShaped table store.now × (class_width ≤ length row.now) }
    ensures { result ≡ not_live table (table_in table store.now) row.now }
{
    any_by_bytes(
        row_limit(table) / 8,
        |at| names_none(table, row, at),
        |n| names_dead(store, row, row_id(table, n)),
    )
}

// Whether the superclass of class c is not earlier.
fn superclass_late(row: &[u8], c: ClassNumber) -> bool
    requires { (class_width ≤ length row.now) × (c.0 < class_limit) }
    ensures { result ≡ superclass_late c.0 row.now }
{
    let Some(above) = superclass(row) else {
        return true;
    };
    if c.0 == 0 {
        return above.0 != 0;
    }
    c.0 <= above.0
}

// Whether a class breaks rule 18.
#[tactic(auto, unfolding(crate::specs::Live::class_wrong))]
pub fn class_wrong(classes: &[u8], c: ClassNumber) -> bool
    requires { TableShaped Classes classes.now × (c.0 < (table_in Classes classes.now).count) }
    ensures { result ≡ class_wrong (table_in Classes classes.now) c.0 }
{
    let row = class_row(classes, c);
    not_live(TableId::Classes, classes, row) || superclass_late(row, c)
}

// Whether a list of a class holds its own number, which bars it from being added: 18.
#[tactic(auto, unfolding(crate::specs::Live::lists_itself))]
pub fn lists_itself(classes: &[u8], c: ClassNumber) -> bool
    requires { TableShaped Classes classes.now × (c.0 < (table_in Classes classes.now).count) }
    ensures { result ≡ lists_itself (table_in Classes classes.now) c.0 }
{
    let row = class_row(classes, c);
    is_listed(ClassList::Auxiliaries, row, c) || is_listed(ClassList::Superiors, row, c)
}

// Whether a row breaks rule 23.
#[tactic(auto, unfolding(crate::specs::Live::naming_wrong))]
pub fn naming_wrong(attributes: &[u8], row: &[u8]) -> bool
    requires { TableShaped Attributes attributes.now × (class_width ≤ length row.now) }
    ensures { result ≡ naming_wrong (table_in Attributes attributes.now) (naming_of row.now) }
{
    let Some(a) = naming_attribute(row) else {
        return false;
    };
    if row_count(TableId::Attributes, attributes) <= a.0 {
        return false;
    }
    let naming = attribute_row(attributes, a);
    // 12 is the papers' syntax 2.5.5.12, as the row has it (docs/FORMAT.md); no enum, since a row may hold any byte.
    syntax(naming) != 12 || !is_single_valued(naming)
}
