// What a change adds that a rule binds by itself, and the judgements of a result: of all rows, and of the changed one.
ghost use Rattle.std.specs.Prelude.{◌≡◌, ◌≤◌, ◌<◌, length};
ghost use Rattle.schema.specs.Numbers.{class_limit, number_of, table_of};
ghost use Rattle.schema.specs.Layout.{class_width, closure_length};
ghost use Rattle.schema.specs.Refused.{outcome_number};
ghost use Rattle.schema.specs.Store.{schema_in};
ghost use Rattle.tables.specs.Shaped.{Shaped};
ghost use Rattle.schema.specs.declared.number.TableId.TheVariants.{Classes};
ghost use Rattle.change_read.specs.Carried.{target_of};
ghost use Rattle.change_model.specs.Model.{added_by};
ghost use Rattle.keeper_change.specs.Judged.{RowThere, judged_row, judged_whole};

use change_read::carried::{entry_of, list_of, target_of};
use change_read::read::Change;
use change_rows::list::list_table;
use closure_change::after::demand_changes;
use graph::demand::demands_differ;
use rules::judge::judge;
use rules::row::{Added, first_broken};
use schema::number::{ClassNumber, RowId, TableId};
use schema::refusal::Refusal;

// What a change adds, to a schema of n classes.
pub fn added_by(change: Change, scratch: &[u8], n: usize) -> Added
    requires { (length scratch.now ≡ class_width) × (change ≡ Change.AddEntry → target_of scratch.now < class_limit)
        × (change ≡ Change.Add Classes → n < class_limit) }
    ensures { result ≡ added_by change scratch.now n }
{
    match change {
        Change::Add(table) => match table {
            TableId::Attributes => Added::Nothing,
            TableId::Classes => {
                let Some(c) = ClassNumber::new(n) else {
                    return Added::Nothing;
                };
                Added::Class(c)
            }
        },
        Change::SetRange => Added::Nothing,
        Change::Rename(_) => Added::Nothing,
        Change::Deactivate(_) => Added::Nothing,
        Change::Reactivate(_) => Added::Nothing,
        Change::AddEntry => {
            let Some(k) = ClassNumber::new(target_of(scratch) as usize) else {
                return Added::Nothing;
            };
            Added::Entry {
                class: k,
                table: list_table(list_of(scratch)),
                number: entry_of(scratch) as usize,
            }
        }
        Change::RemoveEntry => Added::Nothing,
    }
}

// Refused by the first of 12 to 29 that some row of the result breaks, by 30 where one of the first n classes would demand other attributes than it kept.
pub fn judged_whole<'a>(
    added: Added,
    attributes: &'a [u8],
    classes: &'a [u8],
    closure: &[u8],
    n: usize,
) -> Result<(), Refusal>
    requires { Shaped attributes.now classes.now × (closure_length ≤ length closure.now) × (n ≤ class_limit) }
    ensures { outcome_number result ≡ judged_whole added (schema_in attributes.now classes.now) closure.now n }
{
    // No `?`, here and below: the edits accepts_all and quick_judges_no_rule are refused by what each way out promises, and a `?` has no way out of its own.
    if let Err(broken) = judge(added, attributes, classes) {
        return Err(broken.rule);
    }
    if demands_differ(classes, closure, n) {
        return Err(Refusal::MandatoryDiffers);
    }
    Ok(())
}

// Refused by the first of 12 to 29 that the changed row breaks, by 30 where its class would demand other attributes than before.
pub fn judged_row<'a>(
    added: Added,
    change: Change,
    scratch: &[u8],
    attributes: &'a [u8],
    classes: &'a [u8],
    before: &[u8],
    closure: &[u8],
    id: RowId,
) -> Result<(), Refusal>
    requires { RowThere added change scratch.now attributes.now classes.now closure.now id }
    ensures { outcome_number result ≡ judged_row added change scratch.now (schema_in attributes.now classes.now) (table_of id) (number_of id)
        before.now closure.now }
{
    if let Err(rule) = first_broken(added, attributes, classes, id) {
        return Err(rule);
    }
    if demand_changes(change, scratch, classes, before, closure) {
        return Err(Refusal::MandatoryDiffers);
    }
    Ok(())
}
