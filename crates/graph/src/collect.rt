// The attributes that a set of classes lists: unions over the rows of the class store.
ghost use Rattle.std.specs.Prelude.{◌≡◌, ◌+◌, ◌≤◌, ◌<◌, length};
ghost use Rattle.sets.specs.Sets.{member, set_of};
ghost use Rattle.schema.specs.Layout.{attribute_set, class_width, mandatory_at};
ghost use Rattle.schema.specs.Store.{table_in};
ghost use Rattle.schema.specs.declared.number.TableId.TheVariants.{Classes};
ghost use Rattle.graph.specs.Graph.{Readable};
ghost use Rattle.graph.specs.Collect.{chosen_lists, collected, plus};

use crate::visited::Visited;
use prelude::part::{clear, part_of};
use schema::layout::{ATTRIBUTE_SET, MANDATORY};
use schema::number::{ClassNumber, TableId, class_at};
use schema::store::{class_row, row_count};

// Adds to out the members of the set at a place of row k, if k is chosen.
fn add_chosen(classes: &[u8], chosen: Visited, at: usize, k: ClassNumber, out: &mut [u8])
    requires readable { Readable classes.now }
    requires attribute_set_bound { (at + attribute_set ≤ class_width) × (k.0 < (table_in Classes classes.now).count) × (length out.old ≡ attribute_set) }
    ensures { out.new ≡ plus out.old (chosen_lists (table_in Classes classes.now) (member chosen.bits) at k.0) }
{
    if chosen.has(k) {
        let row = class_row(classes, k);
        sets::join(out, part_of(row, at, ATTRIBUTE_SET));
    }
}

// Adds to out the members of the sets at a place of the rows of all chosen classes.
fn add_all(classes: &[u8], chosen: Visited, at: usize, out: &mut [u8])
    requires readable { Readable classes.now }
    requires attribute_set_bound { (at + attribute_set ≤ class_width) × (length out.old ≡ attribute_set) }
    ensures { out.new ≡ plus out.old (collected (table_in Classes classes.now) (member chosen.bits) at) }
{
    for k in 0..row_count(TableId::Classes, classes) {
        add_chosen(classes, chosen, at, class_at(k), out);
    }
}

// out becomes the mandatory attributes that the chosen classes list.
pub fn write_mandatory(classes: &[u8], chosen: Visited, out: &mut [u8])
    requires readable { Readable classes.now }
    requires out_len { length out.old ≡ attribute_set }
    ensures { out.new ≡ set_of attribute_set (collected (table_in Classes classes.now) (member chosen.bits) mandatory_at) }
{
    clear(out);
    add_all(classes, chosen, MANDATORY, out);
}
