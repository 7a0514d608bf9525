// What a class row names.
ghost use Rattle.std.specs.Prelude.{◌||◌, ◌≡◌, ◌≤◌, ◌<◌, eqb, length};
ghost use Rattle.sets.specs.Sets.{member};
ghost use Rattle.schema.specs.Numbers.{class_limit, limit, table_of, number_of};
ghost use Rattle.schema.specs.Layout.{class_width};
ghost use Rattle.schema.specs.declared.number.TableId.TheVariants.{Attributes, Classes};
ghost use Rattle.schema.specs.ClassRow.{superclass_of, naming_of};
ghost use Rattle.tables.specs.Named.{lists, named_by, names};

use schema::class::{
    fixed_auxiliary, fixed_optional, fixed_superior, mandatory, naming_attribute, open_auxiliary,
    open_optional, open_superior, superclass,
};
use schema::number::{AttributeNumber, ClassNumber, RowId};
use sets::has;

// The two kinds of lists of classes, each with a fixed and an open list.
#[derive(Clone, Copy)]
pub enum ClassList {
    Auxiliaries,
    Superiors,
}

// Whether n is in one of two sets.
fn in_either(a: &[u8], b: &[u8], n: usize) -> bool
    ensures { result ≡ (member a.now n || member b.now n) }
{
    has(a, n) || has(b, n)
}

// Whether a class is in a list of the kind.
#[tactic(auto, unfolding(crate::specs::Named::lists))]
pub fn is_listed(kind: ClassList, row: &[u8], c: ClassNumber) -> bool
    requires { class_width ≤ length row.now }
    ensures { result ≡ lists kind row.now c.0 }
{
    match kind {
        ClassList::Auxiliaries => in_either(fixed_auxiliary(row), open_auxiliary(row), c.0),
        ClassList::Superiors => in_either(fixed_superior(row), open_superior(row), c.0),
    }
}

#[tactic(auto, unfolding(crate::specs::Named::named_by))]
fn is_named_by(row: &[u8], a: AttributeNumber) -> bool
    requires { class_width ≤ length row.now }
    ensures { result ≡ named_by (naming_of row.now) a.0 }
{
    naming_attribute(row).is_some_and(|n| n.0 == a.0)
}

// Whether the row names an attribute: in a list or as rDNAttID.
#[tactic(auto, unfolding(crate::specs::Named::names))]
fn names_attribute(row: &[u8], a: AttributeNumber) -> bool
    requires { class_width ≤ length row.now }
    ensures { result ≡ names Attributes row.now a.0 }
{
    has(mandatory(row), a.0)
        || has(fixed_optional(row), a.0)
        || has(open_optional(row), a.0)
        || is_named_by(row, a)
}

// Whether class c is the row's superclass.
pub fn is_superclass(row: &[u8], c: ClassNumber) -> bool
    requires { (class_width ≤ length row.now) × (c.0 < class_limit) }
    ensures { result ≡ eqb (superclass_of row.now) c.0 }
{
    superclass(row).is_some_and(|s| s.0 == c.0)
}

// Whether the row names a class: as superclass or in a list.
#[tactic(auto, unfolding(crate::specs::Named::names))]
fn names_class(row: &[u8], c: ClassNumber) -> bool
    requires { (class_width ≤ length row.now) × (c.0 < class_limit) }
    ensures { result ≡ names Classes row.now c.0 }
{
    is_superclass(row, c)
        || is_listed(ClassList::Auxiliaries, row, c)
        || is_listed(ClassList::Superiors, row, c)
}

// Whether the row names a row of either table.
pub fn is_naming(row: &[u8], id: RowId) -> bool
    requires { (class_width ≤ length row.now) × (number_of id < limit (table_of id)) }
    ensures { result ≡ names (table_of id) row.now (number_of id) }
{
    match id {
        RowId::Attribute(a) => names_attribute(row, a),
        RowId::Class(c) => names_class(row, c),
    }
}
