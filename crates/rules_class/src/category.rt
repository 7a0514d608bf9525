// Rules 19, 20, 21 and 38 to 40: the categories of the classes that a class names.
ghost use Rattle.std.specs.Prelude.{◌≡◌, ◌+◌, ◌*◌, ◌≤◌, ◌<◌, length};
ghost use Rattle.prelude.specs.Below.{any_below};
ghost use Rattle.schema.specs.Numbers.{class_limit};
ghost use Rattle.schema.specs.Layout.{class_set, class_width};
ghost use Rattle.schema.specs.Store.{table_in};
ghost use Rattle.schema.specs.declared.number.TableId.TheVariants.{Classes};
ghost use Rattle.tables.specs.Shaped.{TableShaped};
ghost use Rattle.rules_class.specs.Category.{category_number, Decodes, list_category, other_category, wrongly_listed, category_wrong, inheritance};
ghost use Rattle.rules_class.specs.Blank.{lists_none};
ghost use Rattle.rules_class.specs.Category.{root_inheritance, inheritance_of, answer_number, inheritance_wrong};

use crate::blank::{any_by_bytes, is_blank};
use schema::class::{
    category, fixed_auxiliary, fixed_superior, open_auxiliary, open_superior, superclass,
};
use schema::layout::CLASS_SET;
use schema::number::{ClassNumber, TableId, class_at};
use schema::refusal::{DONE, Refusal};
use schema::store::{class_row, row_count};
use tables::named::{ClassList, is_listed};

// "category (0 88 class, 1 structural, 2 abstract, 3 auxiliary)"
#[derive(Clone, Copy, PartialEq, Eq)]
pub enum Category {
    Class88,
    Structural,
    Abstract,
    Auxiliary,
}

// A byte that stands for no category.
#[derive(Clone, Copy, PartialEq, Eq)]
pub struct NoCategory(pub u8);

impl TryFrom<u8> for Category {
    type Error = NoCategory;

    ghost try_from_gives = { Decodes };

    fn try_from(byte: u8) -> Result<Self, NoCategory> {
        match byte {
            0 => Ok(Category::Class88),
            1 => Ok(Category::Structural),
            2 => Ok(Category::Abstract),
            3 => Ok(Category::Auxiliary),
            _ => Err(NoCategory(byte)),
        }
    }
}

// Which of rules 21, 38, 39 and 40 a class breaks.
#[derive(Clone, Copy, PartialEq, Eq)]
pub enum Inheritance {
    RootNotAbstract,
    AbstractUnderOther,
    AuxiliaryUnderStructural,
    StructuralUnderAuxiliary,
}

// The category, beside 88 class, that the classes of a list may have.
fn list_category(kind: ClassList) -> Category
    ensures { category_number result ≡ list_category kind }
{
    match kind {
        ClassList::Auxiliaries => Category::Auxiliary,
        ClassList::Superiors => Category::Structural,
    }
}

// Whether a class that is there has neither of the two categories that a list's classes may have.
#[tactic(auto, unfolding(crate::specs::Category::other_category))]
fn has_other_category(kind: ClassList, classes: &[u8], c: ClassNumber) -> bool
    requires { TableShaped Classes classes.now × (c.0 < class_limit) }
    ensures { result ≡ other_category kind (table_in Classes classes.now) c.0 }
{
    c.0 < row_count(TableId::Classes, classes)
        && match Category::try_from(category(class_row(classes, c))) {
            Ok(own) => own != Category::Class88 && own != list_category(kind),
            Err(_) => true,
        }
}

// Whether a list of the row holds the class, which has a category that it may not have there.
#[tactic(auto, unfolding(crate::specs::Category::wrongly_listed))]
fn is_wrongly_listed(kind: ClassList, classes: &[u8], row: &[u8], c: ClassNumber) -> bool
    requires { TableShaped Classes classes.now × (class_width ≤ length row.now) × (c.0 < class_limit) }
    ensures { result ≡ wrongly_listed kind (table_in Classes classes.now) row.now c.0 }
{
    is_listed(kind, row, c) && has_other_category(kind, classes, c)
}

// Whether no list of the kind holds one of the eight classes of a byte.
#[tactic(auto, unfolding(crate::specs::Blank::lists_none))]
fn lists_none(kind: ClassList, row: &[u8], at: usize) -> bool
    requires { (class_width ≤ length row.now) × (at < class_set) }
    ensures { result ≡ lists_none kind row.now at }
{
    match kind {
        ClassList::Auxiliaries => is_blank(fixed_auxiliary(row), open_auxiliary(row), at),
        ClassList::Superiors => is_blank(fixed_superior(row), open_superior(row), at),
    }
}

// Whether a row breaks rule 19 or, for its possible superiors, rule 20. Most bytes of the lists are blank.
pub fn category_wrong(kind: ClassList, classes: &[u8], row: &[u8]) -> bool
    requires { TableShaped Classes classes.now × (class_width ≤ length row.now) }
    ensures { result ≡ category_wrong kind (table_in Classes classes.now) row.now }
{
    any_by_bytes(
        CLASS_SET,
        |at| lists_none(kind, row, at),
        |n| is_wrongly_listed(kind, classes, row, class_at(n)),
    )
}

// The rule that a category breaks under the superclass's, if it breaks one. A byte that stands for no category is none of the four.
#[tactic(auto, unfolding(crate::specs::Category::inheritance))]
pub fn inheritance_under(own: u8, above: u8) -> Option<Inheritance>
    ensures { result ≡ inheritance own above }
{
    match (Category::try_from(own), Category::try_from(above)) {
        (Ok(Category::Abstract), Ok(Category::Abstract)) => None,
        (Ok(Category::Abstract), _) => Some(Inheritance::AbstractUnderOther),
        (Ok(Category::Auxiliary), Ok(Category::Structural)) => {
            Some(Inheritance::AuxiliaryUnderStructural)
        }
        (Ok(Category::Structural), Ok(Category::Auxiliary)) => {
            Some(Inheritance::StructuralUnderAuxiliary)
        }
        _ => None,
    }
}

// The rule that the category of row 0 breaks, if it breaks it.
#[tactic(auto, unfolding(crate::specs::Category::root_inheritance))]
pub fn root_inheritance(own: u8) -> Option<Inheritance>
    ensures { result ≡ root_inheritance own }
{
    match Category::try_from(own) {
        Ok(Category::Abstract) => None,
        _ => Some(Inheritance::RootNotAbstract),
    }
}

// The rule that a class breaks, if it breaks one. No other function judges a category under the superclass's: all who ask pass this on.
pub fn inheritance_of(classes: &[u8], c: ClassNumber) -> Option<Inheritance>
    requires { TableShaped Classes classes.now × (c.0 < (table_in Classes classes.now).count) }
    ensures { result ≡ inheritance_of (table_in Classes classes.now) c.0 }
{
    let row = class_row(classes, c);
    if c.0 == 0 {
        return root_inheritance(category(row));
    }
    let s = superclass(row)?;
    if row_count(TableId::Classes, classes) <= s.0 {
        return None;
    }
    inheritance_under(category(row), category(class_row(classes, s)))
}

// The papers' number of an answer, 0 for none: the list of the rules and the answers to C speak of numbers. No From, since 0 stands for None.
pub fn inheritance_number(found: Option<Inheritance>) -> u8
    ensures { result ≡ answer_number found }
{
    match found {
        None => DONE,
        Some(Inheritance::RootNotAbstract) => Refusal::RootNotAbstract.number(),
        Some(Inheritance::AbstractUnderOther) => Refusal::AbstractUnderOther.number(),
        Some(Inheritance::AuxiliaryUnderStructural) => Refusal::AuxiliaryUnderStructural.number(),
        Some(Inheritance::StructuralUnderAuxiliary) => Refusal::StructuralUnderAuxiliary.number(),
    }
}

// Whether the small check's answer for a class has a number: 21, 38, 39 or 40.
// A number and no Refusal: docs/NUMBERS.md names it, and it promises at every number, 0 too.
#[tactic(auto, unfolding(crate::specs::Category::inheritance_wrong))]
pub fn inheritance_wrong(number: u8, classes: &[u8], c: ClassNumber) -> bool
    requires { TableShaped Classes classes.now × (c.0 < (table_in Classes classes.now).count) }
    ensures { result ≡ inheritance_wrong number (table_in Classes classes.now) c.0 }
{
    inheritance_number(inheritance_of(classes, c)) == number
}
