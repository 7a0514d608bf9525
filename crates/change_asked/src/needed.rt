// Number 11: whether another row needs a row that is to be deactivated.
ghost use Rattle.std.specs.Prelude.{◌≡◌, ◌≤◌, ◌<◌, length};
ghost use Rattle.prelude.specs.Below.{any_below};
ghost use Rattle.schema.specs.Layout.{attribute_width};
ghost use Rattle.schema.specs.Numbers.{limit, table_of, number_of};
ghost use Rattle.schema.specs.Store.{table_in, schema_in, table};
ghost use Rattle.schema.specs.declared.number.TableId.TheVariants.{Attributes, Classes};
ghost use Rattle.tables.specs.Shaped.{TableShaped, Shaped};
ghost use Rattle.change_asked.specs.Needed.{class_needs, link_needs, needed};

use rules_attribute::link::is_forward_of;
use schema::attribute::link;
use schema::number::{
    AttributeNumber, ClassNumber, RowId, TableId, attribute_at, class_at, same_row,
};
use schema::row::is_defunct;
use schema::store::{attribute_row, class_row, row_count};
use tables::named::is_naming;

// Whether a class is active, is another row than the given one, and names it.
#[tactic(auto, unfolding(crate::specs::Needed::class_needs))]
fn class_needs(id: RowId, classes: &[u8], j: ClassNumber) -> bool
    requires { TableShaped Classes classes.now × (j.0 < (table_in Classes classes.now).count) × (number_of id < limit (table_of id)) }
    ensures { result ≡ class_needs (table_of id) (number_of id) (table_in Classes classes.now) j.0 }
{
    let row = class_row(classes, j);
    !same_row(id, RowId::Class(j)) && !is_defunct(row) && is_naming(row, id)
}

// Whether some class is. Apart from some_link_needs: one function of both takes this very closure, and each call is no shorter.
fn some_class_needs(id: RowId, classes: &[u8]) -> bool
    requires { TableShaped Classes classes.now × (number_of id < limit (table_of id)) }
    ensures { result ≡ any_below (table_in Classes classes.now).count
        (class_needs (table_of id) (number_of id) (table_in Classes classes.now)) }
{
    (0..row_count(TableId::Classes, classes)).any(|j| class_needs(id, classes, class_at(j)))
}

// Whether an attribute is active, and a back link whose forward link is the given row.
#[tactic(auto, unfolding(crate::specs::Needed::link_needs, rules_attribute::specs::Links::is_back_link))]
fn link_needs(row: &[u8], attributes: &[u8], j: AttributeNumber) -> bool
    requires { TableShaped Attributes attributes.now × (j.0 < (table_in Attributes attributes.now).count) × (attribute_width ≤ length row.now) }
    ensures { result ≡ link_needs row.now (table_in Attributes attributes.now) j.0 }
{
    let back = attribute_row(attributes, j);
    !is_defunct(back) && link(back) % 2 == 1 && is_forward_of(back, row)
}

// Whether some attribute is.
fn some_link_needs(row: &[u8], attributes: &[u8]) -> bool
    requires { TableShaped Attributes attributes.now × (attribute_width ≤ length row.now) }
    ensures { result ≡ any_below (table_in Attributes attributes.now).count
        (link_needs row.now (table_in Attributes attributes.now)) }
{
    let count = row_count(TableId::Attributes, attributes);
    (0..count).any(|j| link_needs(row, attributes, attribute_at(j)))
}

// Whether some row needs the given one.
pub fn is_needed<'a>(id: RowId, attributes: &'a [u8], classes: &'a [u8]) -> bool
    requires { Shaped attributes.now classes.now × (number_of id < (table (table_of id) (schema_in attributes.now classes.now)).count) }
    ensures { result ≡ needed (schema_in attributes.now classes.now) (table_of id) (number_of id) }
{
    some_class_needs(id, classes)
        || match id {
            RowId::Attribute(a) => some_link_needs(attribute_row(attributes, a), attributes),
            RowId::Class(_) => false,
        }
}
