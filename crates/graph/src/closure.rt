// The closure store: the three kept sets of every class, worked out afresh and compared.
ghost use Rattle.std.specs.Prelude.{◌≡◌, ◌≤◌, length};
ghost use Rattle.prelude.specs.Part.{splice};
ghost use Rattle.schema.specs.Layout.{attribute_set, closure_length};
ghost use Rattle.schema.specs.Store.{table_in};
ghost use Rattle.schema.specs.declared.number.TableId.TheVariants.{Classes};
ghost use Rattle.graph.specs.Graph.{Readable, demanded_set, closure_rows, is_fresh};

use crate::collect::write_mandatory;
use crate::reach::reached;
use crate::stages::{pass_on, write_firsts};
use prelude::part::part_of;
use schema::layout::CLOSURE_LENGTH;
use schema::number::{ClassNumber, TableId, class_at};
use schema::store::row_count;

// out becomes the set of attributes that c demands.
pub fn write_demanded(classes: &[u8], c: ClassNumber, out: &mut [u8])
    requires readable { Readable classes.now }
    requires out_len { length out.old ≡ attribute_set }
    ensures { out.new ≡ demanded_set (table_in Classes classes.now) c.0 }
{
    write_mandatory(classes, reached(classes, c), out);
}

// The whole closure store is worked out afresh; what stands behind it is not touched.
pub fn refresh_all(classes: &[u8], closure: &mut [u8])
    requires readable { Readable classes.now }
    requires closure_length_in_bounds { closure_length ≤ length closure.old }
    ensures { closure.new ≡ splice 0 (closure_rows (table_in Classes classes.now)) closure.old }
{
    write_firsts(classes, closure);
    let n = row_count(TableId::Classes, classes);
    for k in 0..n {
        pass_on(closure, n, class_at(k));
    }
}

// Whether the closure store is that worked out afresh.
pub fn is_fresh(classes: &[u8], closure: &[u8]) -> bool
    requires readable { Readable classes.now }
    requires closure_length_in_bounds { closure_length ≤ length closure.now }
    ensures { result ≡ is_fresh (table_in Classes classes.now) closure.now }
{
    let mut fresh = [0u8; CLOSURE_LENGTH];
    refresh_all(classes, &mut fresh);
    // No same, which begins at the end: as a rule these are equal, and the library compares many bytes at a time.
    part_of(closure, 0, CLOSURE_LENGTH) == fresh.as_slice()
}
