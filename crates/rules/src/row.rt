// The rules that one row breaks.
ghost use Rattle.std.specs.Prelude.{length, map, ◌≡◌, ◌<◌, ◌≤◌};
ghost use Rattle.prelude.specs.First.{first_of};
ghost use Rattle.schema.specs.Numbers.{table_of, number_of};
ghost use Rattle.schema.specs.declared.number.TableId.TheVariants.{Attributes, Classes};
ghost use Rattle.schema.specs.Refused.{refusal_number, outcome_number};
ghost use Rattle.schema.specs.Store.{table, table_in, schema_in};
ghost use Rattle.schema.specs.Layout.{common_width};
ghost use Rattle.tables.specs.Shaped.{TableShaped, Shaped};
ghost use Rattle.prelude.specs.Unlike.{Unlike};
ghost use Rattle.rules.specs.Rules.{barred, entry_dead, attribute_not_live, class_not_live, common_numbers, schema_rules, rules_of, breaks, row_cases};

use rules_attribute::link::{forward_missing, link_syntax_wrong};
use rules_attribute::range::range_wrong;
use rules_attribute::syntax::{object_class_wrong, syntax_wrong};
use rules_class::category::{category_wrong, inheritance_wrong};
use rules_class::live::{class_wrong, lists_itself, naming_wrong, not_live};
use rules_names::{identifier_invalid, name_invalid};
use rules_unique::{Key, is_taken};
use schema::number::{AttributeNumber, ClassNumber, RowId, TableId, number_read, same_table};
use schema::refusal::Refusal;
use schema::store::{attribute_row, class_row, schema_row};
use tables::live::is_live;
use tables::named::ClassList;

// What a change added, where a rule binds it by itself: a class, none of whose lists may hold its own number; an entry of a class's list, which must be
// live, though no set may be able to hold its number. No `Option` of the other two: the theorems speak of `Nothing`.
#[derive(Clone, Copy)]
pub enum Added {
    Nothing,
    Class(ClassNumber),
    Entry {
        class: ClassNumber,
        table: TableId,
        number: usize,
    },
}

// The order of judging. 38, 39 and 40 stand at the place of 21, and 45 after 29.
pub const ORDER: [Refusal; 21] = [
    Refusal::NameInvalid,
    Refusal::NameTaken,
    Refusal::IdentifierInvalid,
    Refusal::IdentifierTaken,
    Refusal::GuidTaken,
    Refusal::AttributeNotLive,
    Refusal::ClassNotLive,
    Refusal::NotAnAuxiliary,
    Refusal::NotASuperior,
    Refusal::RootNotAbstract,
    Refusal::AbstractUnderOther,
    Refusal::AuxiliaryUnderStructural,
    Refusal::StructuralUnderAuxiliary,
    Refusal::NamingUnfit,
    Refusal::MapiTaken,
    Refusal::RangeCrossed,
    Refusal::SyntaxMisfit,
    Refusal::ObjectClassWrong,
    Refusal::LinkTaken,
    Refusal::LinkAlone,
    Refusal::LinkSyntaxUnfit,
];

// Whether class c was added and a list of it holds its own number.
fn is_barred(added: Added, classes: &[u8], c: ClassNumber) -> bool
    requires { TableShaped Classes classes.now × (c.0 < (table_in Classes classes.now).count) }
    ensures { result ≡ barred added (table_in Classes classes.now) c.0 }
{
    match added {
        Added::Nothing => false,
        Added::Class(a) => {
            if a.0 != c.0 {
                return false;
            }
            lists_itself(classes, c)
        }
        Added::Entry {
            class: _,
            table: _,
            number: _,
        } => false,
    }
}

// Whether an entry that names a row of a table was added to a list of class c, and is not live. The store is the named table's.
fn entry_dead(added: Added, table: TableId, store: &[u8], row: &[u8], c: ClassNumber) -> bool
    requires { TableShaped table store.now × (common_width ≤ length row.now) }
    ensures { result ≡ entry_dead added table (table_in table store.now) row.now c.0 }
{
    match added {
        Added::Nothing => false,
        Added::Class(_) => false,
        Added::Entry {
            class,
            table: named,
            number,
        } => {
            if class.0 != c.0 {
                return false;
            }
            if !same_table(named, table) {
                return false;
            }
            let Some(id) = number_read(table, number) else {
                return true;
            };
            !is_live(store, row, id)
        }
    }
}

// Whether class c breaks rule 17.
fn attribute_not_live(added: Added, attributes: &[u8], classes: &[u8], c: ClassNumber) -> bool
    requires { Shaped attributes.now classes.now × (c.0 < (table_in Classes classes.now).count) }
    ensures { result ≡ attribute_not_live added (schema_in attributes.now classes.now) c.0 }
{
    let row = class_row(classes, c);
    if not_live(TableId::Attributes, attributes, row) {
        return true;
    }
    entry_dead(added, TableId::Attributes, attributes, row, c)
}

// Whether class c breaks rule 18.
fn class_not_live(added: Added, classes: &[u8], c: ClassNumber) -> bool
    requires { TableShaped Classes classes.now × (c.0 < (table_in Classes classes.now).count) }
    ensures { result ≡ class_not_live added (table_in Classes classes.now) c.0 }
{
    if class_wrong(classes, c) {
        return true;
    }
    if is_barred(added, classes, c) {
        return true;
    }
    entry_dead(added, TableId::Classes, classes, class_row(classes, c), c)
}

// Whether an attribute breaks a rule, one that does not bind rows of both tables.
fn attribute_breaks(
    added: Added,
    attributes: &[u8],
    classes: &[u8],
    rule: Refusal,
    a: AttributeNumber,
) -> bool
    requires { Shaped attributes.now classes.now × (a.0 < (table_in Attributes attributes.now).count) × Unlike (refusal_number rule) common_numbers }
    ensures { result ≡ breaks added (schema_in attributes.now classes.now) (refusal_number rule) Attributes a.0 }
{
    let row = attribute_row(attributes, a);
    match rule {
        Refusal::RangeCrossed => range_wrong(row),
        Refusal::SyntaxMisfit => syntax_wrong(row),
        Refusal::ObjectClassWrong => object_class_wrong(row),
        Refusal::LinkAlone => forward_missing(attributes, row),
        Refusal::LinkSyntaxUnfit => link_syntax_wrong(row),
        _ => false,
    }
}

// Whether a class breaks such a rule.
fn class_breaks(
    added: Added,
    attributes: &[u8],
    classes: &[u8],
    rule: Refusal,
    c: ClassNumber,
) -> bool
    requires { Shaped attributes.now classes.now × (c.0 < (table_in Classes classes.now).count) × Unlike (refusal_number rule) common_numbers }
    ensures { result ≡ breaks added (schema_in attributes.now classes.now) (refusal_number rule) Classes c.0 }
{
    let row = class_row(classes, c);
    match rule {
        Refusal::AttributeNotLive => attribute_not_live(added, attributes, classes, c),
        Refusal::ClassNotLive => class_not_live(added, classes, c),
        Refusal::NotAnAuxiliary => category_wrong(ClassList::Auxiliaries, classes, row),
        Refusal::NotASuperior => category_wrong(ClassList::Superiors, classes, row),
        Refusal::RootNotAbstract => inheritance_wrong(rule.number(), classes, c),
        Refusal::AbstractUnderOther => inheritance_wrong(rule.number(), classes, c),
        Refusal::AuxiliaryUnderStructural => inheritance_wrong(rule.number(), classes, c),
        Refusal::StructuralUnderAuxiliary => inheritance_wrong(rule.number(), classes, c),
        Refusal::NamingUnfit => naming_wrong(attributes, row),
        _ => false,
    }
}

// Whether a row breaks such a rule, by the table that it is of.
fn own_breaks(added: Added, attributes: &[u8], classes: &[u8], rule: Refusal, id: RowId) -> bool
    requires { Shaped attributes.now classes.now × (number_of id < (table (table_of id) (schema_in attributes.now classes.now)).count)
        × Unlike (refusal_number rule) common_numbers }
    ensures { result ≡ breaks added (schema_in attributes.now classes.now) (refusal_number rule) (table_of id) (number_of id) }
{
    match id {
        RowId::Attribute(a) => attribute_breaks(added, attributes, classes, rule, a),
        RowId::Class(c) => class_breaks(added, attributes, classes, rule, c),
    }
}

// Whether a row breaks a rule.
pub(crate) fn breaks_rule<'a>(
    added: Added,
    attributes: &'a [u8],
    classes: &'a [u8],
    rule: Refusal,
    id: RowId,
) -> bool
    requires { Shaped attributes.now classes.now × (number_of id < (table (table_of id) (schema_in attributes.now classes.now)).count) }
    ensures { result ≡ breaks added (schema_in attributes.now classes.now) (refusal_number rule) (table_of id) (number_of id) }
{
    let row = schema_row(attributes, classes, id);
    match rule {
        Refusal::NameInvalid => name_invalid(row),
        Refusal::NameTaken => is_taken(attributes, classes, Key::Name, id),
        Refusal::IdentifierInvalid => identifier_invalid(row),
        Refusal::IdentifierTaken => is_taken(attributes, classes, Key::Identifier, id),
        Refusal::GuidTaken => is_taken(attributes, classes, Key::Guid, id),
        Refusal::MapiTaken => is_taken(attributes, classes, Key::Mapi, id),
        Refusal::LinkTaken => is_taken(attributes, classes, Key::Link, id),
        _ => own_breaks(added, attributes, classes, rule, id),
    }
}

// Whether a row breaks the rule of a number; none breaks that of a number that no rule has.
pub fn is_breaking<'a>(
    added: Added,
    attributes: &'a [u8],
    classes: &'a [u8],
    number: u8,
    id: RowId,
) -> bool
    requires { Shaped attributes.now classes.now × (number_of id < (table (table_of id) (schema_in attributes.now classes.now)).count) }
    ensures { result ≡ breaks added (schema_in attributes.now classes.now) number (table_of id) (number_of id) }
{
    match ORDER.iter().find(|rule| rule.number() == number) {
        Some(rule) => breaks_rule(added, attributes, classes, *rule, id),
        None => false,
    }
}

// Refused by the first of some rules that a row breaks. It takes any order, since over `ORDER` itself no goal has a variable that the laws could speak of.
fn first_by<'a>(
    order: &[Refusal],
    added: Added,
    attributes: &'a [u8],
    classes: &'a [u8],
    id: RowId,
) -> Result<(), Refusal>
    requires { Shaped attributes.now classes.now × (number_of id < (table (table_of id) (schema_in attributes.now classes.now)).count) }
    ensures { outcome_number result ≡ first_of
        (row_cases (rules_of (schema_rules added) (map refusal_number order.now)) (schema_in attributes.now classes.now) (table_of id)
        (number_of id)) }
{
    for rule in order {
        if breaks_rule(added, attributes, classes, *rule, id) {
            return Err(*rule);
        }
    }
    Ok(())
}

// Refused by the first rule that a row breaks.
pub fn first_broken<'a>(
    added: Added,
    attributes: &'a [u8],
    classes: &'a [u8],
    id: RowId,
) -> Result<(), Refusal>
    requires { Shaped attributes.now classes.now × (number_of id < (table (table_of id) (schema_in attributes.now classes.now)).count) }
    ensures { outcome_number result ≡ first_of (row_cases (schema_rules added) (schema_in attributes.now classes.now) (table_of id) (number_of id)) }
{
    first_by(&ORDER, added, attributes, classes, id)
}
