// The closure of all classes at once, by Warshall's rule: a class has at first what it names and lists itself; then, class after class, whoever has come
// to a class gets what that class has.
ghost use Rattle.std.specs.Prelude.{◌&&◌, ◌≡◌, ◌*◌, ◌≤◌, ◌<◌, ltb, length};
ghost use Rattle.prelude.specs.Concat.{concat_below};
ghost use Rattle.prelude.specs.Part.{splice};
ghost use Rattle.sets.specs.Sets.{member, set_of, union, with_member};
ghost use Rattle.schema.specs.Numbers.{class_limit};
ghost use Rattle.schema.specs.Layout.{attribute_set, class_set, class_width, closure_length, closure_width};
ghost use Rattle.schema.specs.ClassRow.{superclass_of};
ghost use Rattle.schema.specs.Store.{closure_at, table_in};
ghost use Rattle.schema.specs.declared.number.TableId.TheVariants.{Classes};
ghost use Rattle.graph.specs.Graph.{Readable, lists_mandatory, lists_optional};
ghost use Rattle.graph.specs.Stages.{comes_to, passed_row, stage_row, stage_rows};

use crate::rewrite::rewrite_rows;
use prelude::part::{clear, copy_padded, part_of};
use schema::class::{
    fixed_auxiliary, fixed_optional, mandatory, open_auxiliary, open_optional, superclass,
};
use schema::layout::{ALLOWED, CLASS_SET, CLOSURE_WIDTH, DEMANDED, REACHED};
use schema::number::{ClassNumber, TableId};
use schema::store::{class_row, closure_row, row_count};

// out becomes the union of two sets as long as itself.
pub fn write_union(a: &[u8], b: &[u8], out: &mut [u8])
    requires { (length a.now ≡ length out.old) × (length b.now ≡ length out.old) }
    ensures { out.new ≡ union a.now b.now }
{
    copy_padded(out, a);
    sets::join(out, b);
}

// The members of a set of classes from n on are taken out.
fn keep_below(s: &mut [u8], n: usize)
    requires { length s.old ≡ class_set }
    ensures { s.new ≡ set_of class_set (λ k. member s.old k && ltb k n) }
{
    for k in n..ClassNumber::LIMIT {
        sets::remove(s, k);
    }
}

// The superclass of a row is put into a set of classes. One beyond the limit has no place there.
fn insert_superclass(row: &[u8], out: &mut [u8])
    requires { (class_width ≤ length row.now) × (length out.old ≡ class_set) }
    ensures { out.new ≡ with_member (superclass_of row.now) out.old }
{
    if let Some(s) = superclass(row) {
        sets::insert(out, s.0);
    }
}

// out becomes the classes that c names and that have a row, and c itself.
fn write_named(classes: &[u8], c: ClassNumber, out: &mut [u8])
    requires { Readable classes.now × (c.0 < (table_in Classes classes.now).count) × (length out.old ≡ class_set) }
    ensures { out.new ≡ set_of class_set (comes_to (table_in Classes classes.now) 0 c.0) }
{
    let row = class_row(classes, c);
    write_union(fixed_auxiliary(row), open_auxiliary(row), out);
    insert_superclass(row, out);
    keep_below(out, row_count(TableId::Classes, classes));
    sets::insert(out, c.0);
}

// out becomes the mandatory attributes that c itself lists. Apart from the next: it copies one set, and the other joins two.
fn write_own_mandatory(classes: &[u8], c: ClassNumber, out: &mut [u8])
    requires { Readable classes.now × (c.0 < (table_in Classes classes.now).count) × (length out.old ≡ attribute_set) }
    ensures { out.new ≡ set_of attribute_set (lists_mandatory (table_in Classes classes.now) c.0) }
{
    copy_padded(out, mandatory(class_row(classes, c)));
}

// out becomes the optional attributes that c itself lists, fixed and open.
fn write_own_optional(classes: &[u8], c: ClassNumber, out: &mut [u8])
    requires { Readable classes.now × (c.0 < (table_in Classes classes.now).count) × (length out.old ≡ attribute_set) }
    ensures { out.new ≡ set_of attribute_set (lists_optional (table_in Classes classes.now) c.0) }
{
    let row = class_row(classes, c);
    write_union(fixed_optional(row), open_optional(row), out);
}

// row becomes the three sets of c at stage 0.
fn write_first(classes: &[u8], c: ClassNumber, row: &mut [u8])
    requires { Readable classes.now × (c.0 < class_limit) × (length row.old ≡ closure_width) }
    ensures { row.new ≡ stage_row (table_in Classes classes.now) 0 c.0 }
{
    if row_count(TableId::Classes, classes) <= c.0 {
        clear(row);
        return;
    }
    write_named(classes, c, &mut row[0..DEMANDED]);
    write_own_mandatory(classes, c, &mut row[DEMANDED..ALLOWED]);
    write_own_optional(classes, c, &mut row[ALLOWED..CLOSURE_WIDTH]);
}

// The closure store becomes stage 0; what stands behind it is not touched.
pub fn write_firsts(classes: &[u8], closure: &mut [u8])
    requires { Readable classes.now × (closure_length ≤ length closure.old) }
    ensures { closure.new ≡ splice 0 (stage_rows (table_in Classes classes.now) 0) closure.old }
{
    rewrite_rows(
        closure,
        ClassNumber::LIMIT,
        |c, row| write_first(classes, c, row),
    );
}

// A class whose row is lent gets what class k has, if it has come to k.
fn pass_to(row: &mut [u8], k: ClassNumber, own: &[u8])
    requires { (length row.old ≡ closure_width) × (length own.now ≡ closure_width) }
    ensures { row.new ≡ passed_row k.0 own.now row.old }
{
    if sets::has(part_of(row, REACHED, CLASS_SET), k.0) {
        sets::join(row, own);
    }
}

// Each of the first n classes that has come to class k gets what k has.
pub fn pass_on(closure: &mut [u8], n: usize, k: ClassNumber)
    requires { (closure_length ≤ length closure.old) × (k.0 < class_limit) × (n ≤ class_limit) }
    ensures { closure.new
        ≡ splice 0 (concat_below n (λ c. passed_row k.0 (closure_at closure.old k.0) (closure_at closure.old c)))
        closure.old }
{
    let mut own = [0u8; CLOSURE_WIDTH];
    copy_padded(&mut own, closure_row(closure, k));
    rewrite_rows(closure, n, |_, row| pass_to(row, k, &own));
}
