// Plain change, the whole check. Document 01: "audit, apply, judge the whole result. Done, only that change is made and the stores are in order."
ghost use Rattle.std.specs.Prelude.{◌≡◌};
ghost use Rattle.schema.specs.Refused.{changed_answer};
ghost use Rattle.schema.specs.Store.{stores, result_of};
ghost use Rattle.keeper_change.specs.Plain.{InOrderFor, Judged, plain_read, plain_change};

use crate::judge::{added_by, judged_whole};
use crate::rows::{make, save, undo};
use change_asked::asked::first_asked;
use change_read::read::{Change, read_change};
use graph::closure::refresh_all;
use keeper::check::check_order;
use schema::answer::Answer;
use schema::layout::CLASS_WIDTH;
use schema::number::{RowId, TableId};
use schema::refusal::Refusal;
use schema::store::row_count;

// A change that numbers 5 to 11 let pass: made, judged, and taken back where it is refused.
// Apart from quick_judged: one function of both takes three closures (what is saved, the judge, how the closure follows), each with clauses.
fn plain_judged(
    change: Change,
    scratch: &[u8],
    attributes: &mut [u8],
    classes: &mut [u8],
    closure: &mut [u8],
) -> Result<RowId, Refusal>
    requires { Judged change scratch.now (stores attributes.old classes.old closure.old) }
    ensures { result_of (changed_answer result) (stores attributes.new classes.new closure.new)
        ≡ plain_read (Ok change) scratch.now (stores attributes.old classes.old closure.old) }
{
    let before = save(change, scratch, attributes, classes);
    let id = before.id;
    let present = row_count(TableId::Classes, classes);
    make(change, scratch, id, attributes, classes);
    let added = added_by(change, scratch, present);
    let judged = judged_whole(added, attributes, classes, closure, present);
    if let Err(refusal) = judged {
        undo(before, attributes, classes);
        return Err(refusal);
    }
    refresh_all(classes, closure);
    Ok(id)
}

// A change that was read, of stores in order.
// Apart from quick_read, two lines that require and call another: one function of both is longer.
fn plain_read(
    change: Change,
    scratch: &[u8],
    attributes: &mut [u8],
    classes: &mut [u8],
    closure: &mut [u8],
) -> Result<RowId, Refusal>
    requires { InOrderFor change scratch.now (stores attributes.old classes.old closure.old) }
    ensures { result_of (changed_answer result) (stores attributes.new classes.new closure.new)
        ≡ plain_read (Ok change) scratch.now (stores attributes.old classes.old closure.old) }
{
    first_asked(change, scratch, attributes, classes)?;
    plain_judged(change, scratch, attributes, classes, closure)
}

// 1, 2, 3, 4, then the first number from 5 on, in the order of judging, whose condition holds, with nothing altered; or the change is made, the answer its
// table and row.
pub fn plain_change(
    attributes: &mut [u8],
    classes: &mut [u8],
    closure: &mut [u8],
    change: &[u8],
) -> Answer
    ensures { result_of result (stores attributes.new classes.new closure.new)
        ≡ plain_change change.now (stores attributes.old classes.old closure.old) }
{
    if let Err(refusal) = check_order(attributes, classes, closure) {
        return Answer::refused(refusal.number());
    }
    let mut scratch = [0u8; CLASS_WIDTH];
    match read_change(change, &mut scratch) {
        Err(bad) => Answer::unreadable(bad.at),
        Ok(change) => match plain_read(change, &scratch, attributes, classes, closure) {
            Ok(id) => Answer::changed(id),
            Err(refusal) => Answer::refused(refusal.number()),
        },
    }
}
