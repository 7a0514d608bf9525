// The judge of all rows: rule by rule in the order of judging, for each rule the attributes first, the lowest row first.
ghost use Rattle.std.specs.Prelude.{◌≡◌, map};
ghost use Rattle.schema.specs.Answers.{passed};
ghost use Rattle.schema.specs.Refused.{refusal_number};
ghost use Rattle.schema.specs.Store.{schema_in};
ghost use Rattle.tables.specs.Shaped.{Shaped};
ghost use Rattle.rules.specs.Rules.{schema_rules, numbered, rules_of};
ghost use Rattle.rules.specs.Judge.{judge_rule, judge_rules, judged};
ghost use Rattle.rules.specs.Found.{row_found, row_answer, judge_answer};
ghost use Rattle.rules.specs.Clear.{is_clear};

use crate::row::{Added, ORDER, breaks_rule};
use rules_unique::Key;
use rules_unique::marks::any_taken;
use schema::number::{RowId, TableId, row_id};
use schema::refusal::Refusal;
use schema::store::{row_count, store_of};

// A rule that some row breaks, and the row.
#[derive(Clone, Copy)]
pub struct Broken {
    pub rule: Refusal,
    pub row: RowId,
}

// The lowest row of a table that breaks a rule.
fn first_row<'a>(
    added: Added,
    attributes: &'a [u8],
    classes: &'a [u8],
    rule: Refusal,
    table: TableId,
) -> Option<usize>
    requires { Shaped attributes.now classes.now }
    ensures { result ≡ row_found (numbered (schema_rules added) (refusal_number rule)) (schema_in attributes.now classes.now) table }
{
    let count = row_count(table, store_of(table, attributes, classes));
    (0..count).find(|k| breaks_rule(added, attributes, classes, rule, row_id(table, *k)))
}

// Whether a rule is one of those that compare rows by a key, and no key is taken.
fn is_clear<'a>(added: Added, attributes: &'a [u8], classes: &'a [u8], rule: Refusal) -> bool
    requires { Shaped attributes.now classes.now }
    ensures { result ≡ is_clear added (schema_in attributes.now classes.now) (refusal_number rule) }
{
    match rule {
        Refusal::NameTaken => !any_taken(attributes, classes, Key::Name),
        Refusal::IdentifierTaken => !any_taken(attributes, classes, Key::Identifier),
        Refusal::GuidTaken => !any_taken(attributes, classes, Key::Guid),
        Refusal::MapiTaken => !any_taken(attributes, classes, Key::Mapi),
        Refusal::LinkTaken => !any_taken(attributes, classes, Key::Link),
        _ => false,
    }
}

// The lowest row that breaks a rule, attributes first.
fn judge_rule<'a>(
    added: Added,
    attributes: &'a [u8],
    classes: &'a [u8],
    rule: Refusal,
) -> Option<RowId>
    requires { Shaped attributes.now classes.now }
    ensures { row_answer (refusal_number rule) result
        ≡ judge_rule (numbered (schema_rules added) (refusal_number rule)) (schema_in attributes.now classes.now) passed }
{
    if is_clear(added, attributes, classes, rule) {
        return None;
    }
    if let Some(a) = first_row(added, attributes, classes, rule, TableId::Attributes) {
        return Some(row_id(TableId::Attributes, a));
    }
    let c = first_row(added, attributes, classes, rule, TableId::Classes)?;
    Some(row_id(TableId::Classes, c))
}

// The rows by some rules, one after the other: any rules, as in `first_by`.
fn judge_by<'a>(
    order: &[Refusal],
    added: Added,
    attributes: &'a [u8],
    classes: &'a [u8],
) -> Result<(), Broken>
    requires { Shaped attributes.now classes.now }
    ensures { judge_answer result ≡ judge_rules (rules_of (schema_rules added) (map refusal_number order.now)) (schema_in attributes.now classes.now) }
{
    for rule in order {
        if let Some(row) = judge_rule(added, attributes, classes, *rule) {
            return Err(Broken { rule: *rule, row });
        }
    }
    Ok(())
}

// Both tables by rules 12 to 29: refused by the first rule that some row breaks, with the lowest row that does, attributes first.
pub fn judge<'a>(added: Added, attributes: &'a [u8], classes: &'a [u8]) -> Result<(), Broken>
    requires { Shaped attributes.now classes.now }
    ensures { judge_answer result ≡ judged added (schema_in attributes.now classes.now) }
{
    judge_by(&ORDER, added, attributes, classes)
}
