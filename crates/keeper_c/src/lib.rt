// The keeper's calls for C (include/keeper.h). Each returns the answer's number and writes its table and place into `detail`. A `detail` that is too
// short for both counts as a store that is too short: number 1, and nothing is altered.
#![tactic(auto)]

ghost use Rattle.std.specs.Prelude.{◌≡◌, ◌≤◌, length};
ghost use Rattle.schema.specs.Store.{stores};
ghost use Rattle.keeper_c.specs.Calls.{told, answered, detail_length, audit_call, depth_call, outcome, load_call, wrote, write_call};
ghost use Rattle.keeper_c.specs.Calls.{plain_change_call, quick_change_call};

use keeper::audit::audit;
use keeper::depth::depth;
use keeper::load::load;
use keeper::write::write;
use keeper_change::plain::plain_change;
use keeper_change::quick::quick_change;
use schema::answer::Answer;
use schema::refusal::Refusal;

// Table and place: so many numbers.
pub const DETAIL: usize = 2;

// Writes an answer's table and place, and gives its number.
fn answer_in(answer: Answer, detail: &mut [u64]) -> u64
    requires { detail_length ≤ length detail.old }
    ensures { told result detail.new ≡ answered answer detail.old }
{
    detail[0] = answer.table as u64;
    detail[1] = answer.place as u64;
    answer.number as u64
}

#[unsafe(no_mangle)]
pub extern "C" fn keeper_load(
    sheet: &[u8],
    attributes: &mut [u8],
    classes: &mut [u8],
    closure: &mut [u8],
    detail: &mut [u64],
) -> u64
    ensures { outcome (told result detail.new) (stores attributes.new classes.new closure.new)
        ≡ load_call sheet.now (stores attributes.old classes.old closure.old) detail.old }
{
    // In each of the six: a function of them takes a closure that borrows the stores, with clauses on it for this one line.
    if detail.len() < DETAIL {
        return Refusal::ShortStore.number() as u64;
    }
    answer_in(load(sheet, attributes, classes, closure), detail)
}

#[unsafe(no_mangle)]
pub extern "C" fn keeper_plain_change(
    change: &[u8],
    attributes: &mut [u8],
    classes: &mut [u8],
    closure: &mut [u8],
    detail: &mut [u64],
) -> u64
    ensures { outcome (told result detail.new) (stores attributes.new classes.new closure.new)
        ≡ plain_change_call change.now (stores attributes.old classes.old closure.old) detail.old }
{
    if detail.len() < DETAIL {
        return Refusal::ShortStore.number() as u64;
    }
    answer_in(plain_change(attributes, classes, closure, change), detail)
}

#[unsafe(no_mangle)]
pub extern "C" fn keeper_quick_change(
    change: &[u8],
    attributes: &mut [u8],
    classes: &mut [u8],
    closure: &mut [u8],
    detail: &mut [u64],
) -> u64
    ensures { outcome (told result detail.new) (stores attributes.new classes.new closure.new)
        ≡ quick_change_call change.now (stores attributes.old classes.old closure.old) detail.old }
{
    if detail.len() < DETAIL {
        return Refusal::ShortStore.number() as u64;
    }
    answer_in(quick_change(attributes, classes, closure, change), detail)
}

#[unsafe(no_mangle)]
pub extern "C" fn keeper_write(
    attributes: &[u8],
    classes: &[u8],
    closure: &[u8],
    output: &mut [u8],
    detail: &mut [u64],
) -> u64
    ensures { wrote (told result detail.new) output.new
        ≡ write_call (stores attributes.now classes.now closure.now) output.old detail.old }
{
    if detail.len() < DETAIL {
        return Refusal::ShortStore.number() as u64;
    }
    answer_in(write(attributes, classes, closure, output), detail)
}

#[unsafe(no_mangle)]
pub extern "C" fn keeper_audit<'a>(
    attributes: &'a [u8],
    classes: &'a [u8],
    closure: &[u8],
    detail: &mut [u64],
) -> u64
    ensures { told result detail.new
        ≡ audit_call (stores attributes.now classes.now closure.now) detail.old }
{
    if detail.len() < DETAIL {
        return Refusal::ShortStore.number() as u64;
    }
    answer_in(audit(attributes, classes, closure), detail)
}

#[unsafe(no_mangle)]
pub extern "C" fn keeper_depth(
    attributes: &[u8],
    classes: &[u8],
    closure: &[u8],
    class: u16,
    detail: &mut [u64],
) -> u64
    ensures { told result detail.new
        ≡ depth_call (stores attributes.now classes.now closure.now) class detail.old }
{
    if detail.len() < DETAIL {
        return Refusal::ShortStore.number() as u64;
    }
    answer_in(depth(attributes, classes, closure, class), detail)
}
