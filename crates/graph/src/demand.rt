// Rule 30: whether a class would demand other attributes than it does. Document 01: "some present class's mandatory set would differ".
ghost use Rattle.std.specs.Prelude.{not, ◌≡◌, ◌≤◌, ◌<◌, length};
ghost use Rattle.prelude.specs.Part.{same_bytes};
ghost use Rattle.schema.specs.Numbers.{class_limit};
ghost use Rattle.schema.specs.Layout.{closure_length};
ghost use Rattle.schema.specs.Store.{table_in, demanded_in};
ghost use Rattle.schema.specs.declared.number.TableId.TheVariants.{Classes};
ghost use Rattle.graph.specs.Graph.{Readable, demanded_set, demands_differ};

use crate::closure::write_demanded;
use prelude::part::{part_of, same};
use schema::layout::{ATTRIBUTE_SET, DEMANDED};
use schema::number::{ClassNumber, class_at};
use schema::store::closure_row;

// The kept mandatory set of a class.
pub fn demanded(closure: &[u8], c: ClassNumber) -> &[u8]
    requires { (closure_length ≤ length closure.now) × (c.0 < class_limit) }
    ensures { result.now ≡ demanded_in closure.now c.0 }
{
    part_of(closure_row(closure, c), DEMANDED, ATTRIBUTE_SET)
}

// Whether a class demands, worked out afresh, other attributes than it did.
pub fn demand_differs(classes: &[u8], c: ClassNumber, before: &[u8]) -> bool
    requires { Readable classes.now }
    ensures { result ≡ not (same_bytes before.now (demanded_set (table_in Classes classes.now) c.0)) }
{
    let mut fresh = [0u8; ATTRIBUTE_SET];
    write_demanded(classes, c, &mut fresh);
    !same(before, &fresh)
}

// Whether one of the first n classes demands other attributes than its kept mandatory set has.
pub fn demands_differ(classes: &[u8], closure: &[u8], n: usize) -> bool
    requires { Readable classes.now × (closure_length ≤ length closure.now) × (n ≤ class_limit) }
    ensures { result ≡ demands_differ (table_in Classes classes.now) closure.now n }
{
    (0..n).any(|k| {
        let c = class_at(k);
        demand_differs(classes, c, demanded(closure, c))
    })
}
