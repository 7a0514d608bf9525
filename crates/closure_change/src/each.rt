// The classes whose kept reach holds a class: sets joined in for each, or worked out afresh.
ghost use Rattle.std.specs.Prelude.{if◌then◌else◌, ℕ, List, ◌≡◌, ◌≤◌, ◌<◌, length};
ghost use Rattle.schema.specs.Numbers.{class_limit};
ghost use Rattle.schema.specs.Layout.{closure_width, closure_length};
ghost use Rattle.schema.specs.Store.{closure_at, table_in};
ghost use Rattle.schema.specs.declared.number.TableId.TheVariants.{Classes};
ghost use Rattle.graph.specs.Graph.{Readable};
ghost use Rattle.graph.specs.Rewrite.{AreRows, LeavesRows, TakesRows};
ghost use Rattle.closure_change.specs.Kept.{LeavesRow, holds as held, each_holding, joined_into, refreshed_at};

use graph::closure::refresh_all;
use graph::rewrite::rewrite_rows;
use prelude::part::part_of;
use schema::layout::{CLASS_SET, CLOSURE_LENGTH, CLOSURE_WIDTH, REACHED};
use schema::number::ClassNumber;
use schema::store::closure_row;

// Whether class c is one of n, and its kept reach, in its row, holds class k.
#[tactic(auto, unfolding(crate::specs::Kept::holds))]
fn holds(row: &[u8], n: usize, k: ClassNumber, c: ClassNumber) -> bool
    requires { closure_width ≤ length row.now }
    ensures { result ≡ held n k.0 c.0 row.now }
{
    c.0 < n && sets::has(part_of(row, REACHED, CLASS_SET), k.0)
}

// The row of every such class becomes what a function makes of it.
fn rewrite_holding<F: Fn(ClassNumber, &mut [u8])>(
    closure: &mut [u8],
    n: usize,
    k: ClassNumber,
    rewrite: F,
)
    requires long { closure_length ≤ length closure.old }
    requires callable { TakesRows (F.pre rewrite) class_limit }
    ensures { (f : ℕ → List ℕ → List ℕ) → AreRows (λ c. f c (closure_at closure.old c))
        → LeavesRows (F.post rewrite) closure.old class_limit (λ c. f c (closure_at closure.old c))
        → closure.new ≡ each_holding n k.0 f closure.old }
{
    rewrite_rows(
        closure,
        ClassNumber::LIMIT,
        |c, row|
            requires { TakesRows (F.pre rewrite) class_limit × (c.0 < class_limit) × (length row.old ≡ closure_width) }
            ensures { (new : List ℕ) → LeavesRow (F.post rewrite c) row.old new
                → row.new ≡ (if held n k.0 c.0 row.old then new else row.old) }
        {
            if holds(row, n, k, c) {
                rewrite(c, row);
            }
        },
    );
}

// Sets are joined in for every such class.
pub fn join_all(closure: &mut [u8], n: usize, k: ClassNumber, more: &[u8])
    requires { (closure_length ≤ length closure.old) × (length more.now ≡ closure_width) }
    ensures { closure.new ≡ joined_into n k.0 more.now closure.old }
{
    rewrite_holding(closure, n, k, |_, row| sets::join(row, more));
}

// A row becomes that of a class in another closure store.
fn take_row(fresh: &[u8], c: ClassNumber, row: &mut [u8])
    requires { (closure_length ≤ length fresh.now) × (c.0 < class_limit) × (length row.old ≡ closure_width) }
    ensures { row.new ≡ closure_at fresh.now c.0 }
{
    row.copy_from_slice(closure_row(fresh, c));
}

// The sets of every such class are worked out afresh: those of all classes are, at once, since most classes may be concerned.
pub fn refresh_holding(classes: &[u8], n: usize, k: ClassNumber, closure: &mut [u8])
    requires { Readable classes.now × (closure_length ≤ length closure.old) }
    ensures { closure.new ≡ refreshed_at (table_in Classes classes.now) n k.0 closure.old }
{
    let mut fresh = [0u8; CLOSURE_LENGTH];
    refresh_all(classes, &mut fresh);
    rewrite_holding(closure, n, k, |c, row| take_row(&fresh, c, row));
}
