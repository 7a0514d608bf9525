// What a quick change does with the closure, and its rule 30.
ghost use Rattle.std.specs.Prelude.{not, ◌≡◌, ◌≤◌, ◌<◌, length};
ghost use Rattle.prelude.specs.Part.{same_bytes};
ghost use Rattle.sets.specs.Sets.{subset};
ghost use Rattle.schema.specs.Numbers.{class_limit, limit, number_of, table_of};
ghost use Rattle.schema.specs.Layout.{attribute_set, class_width, closure_length, closure_width};
ghost use Rattle.schema.specs.Store.{closure_at, demanded_in, table_in};
ghost use Rattle.schema.specs.declared.number.TableId.TheVariants.{Classes};
ghost use Rattle.graph.specs.Graph.{Readable, demanded_set};
ghost use Rattle.change_read.specs.Carried.{target_of};
ghost use Rattle.change_rows.specs.Lists.{list_table};
ghost use Rattle.closure_change.specs.Kept.{joined_into, option_row};
ghost use Rattle.closure_change.specs.After.{Updatable, closure_after, entry_joined, entry_demands, demand_before, demand_changes};

use crate::added::write_new;
use crate::each::{join_all, refresh_holding};
use change_read::carried::{OpenList, list_of, target_of};
use change_read::read::Change;
use change_rows::list::entry_read;
use graph::closure::write_demanded;
use graph::demand::{demand_differs, demanded};
use prelude::part::{clear, copy_padded, put_bytes};
use schema::layout::{ALLOWED, ATTRIBUTE_SET, CLOSURE_WIDTH};
use schema::number::{AttributeNumber, ClassNumber, RowId, TableId};
use schema::store::closure_row;

// out becomes the kept sets of a class that allows attribute b alone.
fn write_option(b: AttributeNumber, out: &mut [u8])
    requires { length out.old ≡ closure_width }
    ensures { out.new ≡ option_row b.0 }
{
    let mut allowed = [0u8; ATTRIBUTE_SET];
    sets::insert(&mut allowed, b.0);
    clear(out);
    put_bytes(&allowed, out, ALLOWED);
}

// An optional attribute is joined in for every class whose kept reach holds class k.
fn join_option(b: AttributeNumber, n: usize, k: ClassNumber, closure: &mut [u8])
    requires { closure_length ≤ length closure.old }
    ensures { closure.new ≡ joined_into n k.0 (option_row b.0) closure.old }
{
    let mut more = [0u8; CLOSURE_WIDTH];
    write_option(b, &mut more);
    join_all(closure, n, k, &more);
}

// The kept sets of an auxiliary are, as they stand before.
fn join_auxiliary(a: ClassNumber, n: usize, k: ClassNumber, closure: &mut [u8])
    requires { (closure_length ≤ length closure.old) × (a.0 < class_limit) }
    ensures { closure.new ≡ joined_into n k.0 (closure_at closure.old a.0) closure.old }
{
    let mut more = [0u8; CLOSURE_WIDTH];
    copy_padded(&mut more, closure_row(closure, a));
    join_all(closure, n, k, &more);
}

// The closure store after an entry was added to a list of class k.
fn join_entry(list: OpenList, entry: RowId, n: usize, k: ClassNumber, closure: &mut [u8])
    requires { (closure_length ≤ length closure.old) × (table_of entry ≡ list_table list) × (number_of entry < limit (table_of entry)) }
    ensures { closure.new ≡ entry_joined list (number_of entry) n k.0 closure.old }
{
    match (list, entry) {
        (OpenList::Optional, RowId::Attribute(b)) => join_option(b, n, k, closure),
        (OpenList::Auxiliary, RowId::Class(a)) => join_auxiliary(a, n, k, closure),
        _ => {}
    }
}

// The closure store after a change; n classes were there before it.
pub fn update(change: Change, scratch: &[u8], classes: &[u8], n: usize, closure: &mut [u8])
    requires { Updatable change scratch.now classes.now closure.old × (change ≡ Change.Add Classes → n < class_limit) }
    ensures { closure.new
        ≡ closure_after change scratch.now (table_in Classes classes.now) n closure.old }
{
    match change {
        Change::Add(TableId::Classes) => {
            if let Some(c) = ClassNumber::new(n) {
                write_new(classes, c, closure);
            }
        }
        Change::Add(TableId::Attributes)
        | Change::SetRange
        | Change::Rename(_)
        | Change::Deactivate(_)
        | Change::Reactivate(_) => {}
        Change::AddEntry => {
            let Some(k) = ClassNumber::new(target_of(scratch) as usize) else {
                return;
            };
            if let Some(entry) = entry_read(scratch) {
                join_entry(list_of(scratch), entry, n, k, closure);
            }
        }
        Change::RemoveEntry => {
            if let Some(k) = ClassNumber::new(target_of(scratch) as usize) {
                refresh_holding(classes, n, k, closure);
            }
        }
    }
}

// What the target of a removal demands before it is made: out becomes that, and stays for any other change.
pub fn demand_before(change: Change, scratch: &[u8], classes: &[u8], out: &mut [u8])
    requires { (length scratch.now ≡ class_width) × Readable classes.now × (length out.old ≡ attribute_set)
        × (change ≡ Change.RemoveEntry → target_of scratch.now < class_limit) }
    ensures { out.new ≡ demand_before change scratch.now (table_in Classes classes.now) out.old }
{
    match change {
        Change::Add(_)
        | Change::SetRange
        | Change::Rename(_)
        | Change::Deactivate(_)
        | Change::Reactivate(_)
        | Change::AddEntry => {}
        Change::RemoveEntry => {
            if let Some(k) = ClassNumber::new(target_of(scratch) as usize) {
                write_demanded(classes, k, out);
            }
        }
    }
}

// Whether an auxiliary's kept mandatory set is not within that of class k.
fn auxiliary_demands(a: ClassNumber, k: ClassNumber, closure: &[u8]) -> bool
    requires { (closure_length ≤ length closure.now) × (a.0 < class_limit) × (k.0 < class_limit) }
    ensures { result ≡ not (subset (demanded_in closure.now a.0) (demanded_in closure.now k.0)) }
{
    !sets::is_subset(demanded(closure, a), demanded(closure, k))
}

// Rule 30 for an entry added to a list of class k.
fn entry_demands(list: OpenList, entry: RowId, k: ClassNumber, closure: &[u8]) -> bool
    requires { (closure_length ≤ length closure.now) × (table_of entry ≡ list_table list) × (number_of entry < limit (table_of entry))
        × (k.0 < class_limit) }
    ensures { result ≡ entry_demands list (number_of entry) k.0 closure.now }
{
    match (list, entry) {
        (OpenList::Auxiliary, RowId::Class(a)) => auxiliary_demands(a, k, closure),
        _ => false,
    }
}

// Rule 30 of a quick change; before is what its target demanded, where it is a removal.
pub fn demand_changes(
    change: Change,
    scratch: &[u8],
    classes: &[u8],
    before: &[u8],
    closure: &[u8],
) -> bool
    requires { Updatable change scratch.now classes.now closure.now }
    ensures { result ≡ demand_changes change scratch.now (table_in Classes classes.now) before.now
        closure.now }
{
    match change {
        Change::Add(_)
        | Change::SetRange
        | Change::Rename(_)
        | Change::Deactivate(_)
        | Change::Reactivate(_) => false,
        Change::AddEntry => {
            let Some(k) = ClassNumber::new(target_of(scratch) as usize) else {
                return false;
            };
            let Some(entry) = entry_read(scratch) else {
                return false;
            };
            entry_demands(list_of(scratch), entry, k, closure)
        }
        Change::RemoveEntry => {
            let Some(k) = ClassNumber::new(target_of(scratch) as usize) else {
                return false;
            };
            demand_differs(classes, k, before)
        }
    }
}
