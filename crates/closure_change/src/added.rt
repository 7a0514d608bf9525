// The kept sets of an added class. Document 01: "the union of its superclass's and auxiliaries' kept sets, its own lists and itself".
ghost use Rattle.std.specs.Prelude.{◌&&◌, ◌||◌, ◌≡◌, ◌≤◌, ◌<◌, length};
ghost use Rattle.sets.specs.Sets.{member, set_of};
ghost use Rattle.schema.specs.Numbers.{class_limit};
ghost use Rattle.schema.specs.Layout.{class_width, closure_width, closure_length};
ghost use Rattle.schema.specs.Store.{closure_at, table_in};
ghost use Rattle.schema.specs.declared.number.TableId.TheVariants.{Classes};
ghost use Rattle.graph.specs.Graph.{Readable, inherits as inherits_in};
ghost use Rattle.closure_change.specs.Kept.{named_sets, own_row, with_new};

use graph::stages::write_union;
use prelude::part::{clear, put_bytes};
use schema::class::{fixed_optional, mandatory, open_optional};
use schema::layout::{ATTRIBUTE_SET, CLASS_SET, CLOSURE_WIDTH};
use schema::number::{ClassNumber, class_at};
use schema::store::{class_row, closure_row, closure_start};
use tables::named::{ClassList, is_listed, is_superclass};

// Whether class n names class y as its superclass or an auxiliary.
fn inherits(classes: &[u8], n: ClassNumber, y: ClassNumber) -> bool
    requires { Readable classes.now × (n.0 < class_limit) × (y.0 < class_limit) }
    ensures { result ≡ inherits_in (table_in Classes classes.now) n.0 y.0 }
{
    let row = class_row(classes, n);
    is_superclass(row, y) || is_listed(ClassList::Auxiliaries, row, y)
}

// The kept sets of y are joined in, if class n names it.
fn join_named(classes: &[u8], closure: &[u8], n: ClassNumber, y: ClassNumber, out: &mut [u8])
    requires readable { Readable classes.now × (closure_length ≤ length closure.now) }
    requires n_lt_class_limit { (n.0 < class_limit) × (y.0 < class_limit) × (length out.old ≡ closure_width) }
    ensures { out.new
        ≡ set_of closure_width (λ b. member out.old b
        || (inherits_in (table_in Classes classes.now) n.0 y.0 && member (closure_at closure.now y.0) b)) }
{
    if inherits(classes, n, y) {
        sets::join(out, closure_row(closure, y));
    }
}

// out becomes the union of the kept sets of the classes that class n names.
fn write_named(classes: &[u8], closure: &[u8], n: ClassNumber, out: &mut [u8])
    requires readable { Readable classes.now × (closure_length ≤ length closure.now) }
    requires n_lt_class_limit { (n.0 < class_limit) × (length out.old ≡ closure_width) }
    ensures { out.new ≡ named_sets (table_in Classes classes.now) closure.now n.0 }
{
    clear(out);
    for y in 0..ClassNumber::LIMIT {
        join_named(classes, closure, n, class_at(y), out);
    }
}

// out becomes class n itself and the lists of its row.
fn write_own(row: &[u8], n: ClassNumber, out: &mut [u8])
    requires { (length row.now ≡ class_width) × (length out.old ≡ closure_width) }
    ensures { out.new ≡ own_row n.0 row.now }
{
    let mut reached = [0u8; CLASS_SET];
    sets::insert(&mut reached, n.0);
    let mut optional = [0u8; ATTRIBUTE_SET];
    write_union(fixed_optional(row), open_optional(row), &mut optional);
    let demanded = put_bytes(&reached, out, 0);
    let allowed = put_bytes(mandatory(row), out, demanded);
    put_bytes(&optional, out, allowed);
}

// The kept sets of an added class, number n, are written.
pub fn write_new(classes: &[u8], n: ClassNumber, closure: &mut [u8])
    requires { Readable classes.now × (closure_length ≤ length closure.old) × (n.0 < class_limit) }
    ensures { closure.new ≡ with_new (table_in Classes classes.now) n.0 closure.old }
{
    let mut named = [0u8; CLOSURE_WIDTH];
    write_named(classes, closure, n, &mut named);
    let mut own = [0u8; CLOSURE_WIDTH];
    write_own(class_row(classes, n), n, &mut own);
    sets::join(&mut named, &own);
    put_bytes(&named, closure, closure_start(n));
}
