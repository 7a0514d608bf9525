// Quick change. Document 01: "the same, but of the audit only shape. It judges rules 12 to 29 for the changed row alone, against all rows."
ghost use Rattle.std.specs.Prelude.{◌≡◌};
ghost use Rattle.schema.specs.Refused.{changed_answer};
ghost use Rattle.schema.specs.Store.{stores, result_of};
ghost use Rattle.keeper_change.specs.Made.{Allowed};
ghost use Rattle.keeper_change.specs.Quick.{InShapeFor, quick_read, quick_change};

use crate::judge::{added_by, judged_row};
use crate::rows::{make, save, undo};
use change_asked::asked::first_asked;
use change_read::read::{Change, read_change};
use closure_change::after::{demand_before, update};
use keeper::check::check_shape;
use schema::answer::Answer;
use schema::layout::{ATTRIBUTE_SET, CLASS_WIDTH};
use schema::number::{RowId, TableId};
use schema::refusal::Refusal;
use schema::store::row_count;

// A change that numbers 5 to 11 let pass: made, its row judged, and taken back where it is refused; else the closure follows.
// Apart from plain_judged: one function of both takes three closures, as is said there.
fn quick_judged(
    change: Change,
    scratch: &[u8],
    attributes: &mut [u8],
    classes: &mut [u8],
    closure: &mut [u8],
) -> Result<RowId, Refusal>
    requires { Allowed change scratch.now (stores attributes.old classes.old closure.old) }
    ensures { result_of (changed_answer result) (stores attributes.new classes.new closure.new)
        ≡ quick_read (Ok change) scratch.now (stores attributes.old classes.old closure.old) }
{
    let before = save(change, scratch, attributes, classes);
    let id = before.id;
    let present = row_count(TableId::Classes, classes);
    let mut demand = [0u8; ATTRIBUTE_SET];
    demand_before(change, scratch, classes, &mut demand);
    make(change, scratch, id, attributes, classes);
    let added = added_by(change, scratch, present);
    let judged = judged_row(
        added, change, scratch, attributes, classes, &demand, closure, id,
    );
    if let Err(refusal) = judged {
        undo(before, attributes, classes);
        return Err(refusal);
    }
    update(change, scratch, classes, present, closure);
    Ok(id)
}

// A change that was read, of stores in shape.
fn quick_read(
    change: Change,
    scratch: &[u8],
    attributes: &mut [u8],
    classes: &mut [u8],
    closure: &mut [u8],
) -> Result<RowId, Refusal>
    requires { InShapeFor change scratch.now (stores attributes.old classes.old closure.old) }
    ensures { result_of (changed_answer result) (stores attributes.new classes.new closure.new)
        ≡ quick_read (Ok change) scratch.now (stores attributes.old classes.old closure.old) }
{
    first_asked(change, scratch, attributes, classes)?;
    quick_judged(change, scratch, attributes, classes, closure)
}

// 1, 2, 4, then the first number from 5 on, in the order of judging, whose condition holds for the changed row, with nothing altered; or the change is
// made, the answer its table and row.
pub fn quick_change(
    attributes: &mut [u8],
    classes: &mut [u8],
    closure: &mut [u8],
    change: &[u8],
) -> Answer
    ensures { result_of result (stores attributes.new classes.new closure.new)
        ≡ quick_change change.now (stores attributes.old classes.old closure.old) }
{
    if let Err(refusal) = check_shape(attributes, classes, closure) {
        return Answer::refused(refusal.number());
    }
    let mut scratch = [0u8; CLASS_WIDTH];
    match read_change(change, &mut scratch) {
        Err(bad) => Answer::unreadable(bad.at),
        Ok(change) => match quick_read(change, &scratch, attributes, classes, closure) {
            Ok(id) => Answer::changed(id),
            Err(refusal) => Answer::refused(refusal.number()),
        },
    }
}
