// The classes that a class reaches. Document 01: "A class *reaches* itself, its superclass, all its auxiliaries, and what these reach".
ghost use Rattle.std.specs.Prelude.{◌≡◌, ◌≤◌, ◌<◌, length};
ghost use Rattle.sets.specs.Sets.{member, set_of, from};
ghost use Rattle.schema.specs.Numbers.{class_limit};
ghost use Rattle.schema.specs.Layout.{class_set};
ghost use Rattle.schema.specs.Store.{table_in};
ghost use Rattle.schema.specs.declared.number.TableId.TheVariants.{Classes};
ghost use Rattle.graph.specs.Graph.{Readable, reaches};
ghost use Rattle.graph.specs.Visit.{after_visit, after_walk, unvisited_in, first_class, next_unvisited};

use crate::visited::Visited;
use schema::class::{fixed_auxiliary, open_auxiliary, superclass};
use schema::number::{ClassNumber, TableId, class_at};
use schema::store::{class_row, row_count};

// Whether d is in one of two sets and not visited. The sets' bytes are put together and tested once: of three tests by sets::has in a row, visited first
// costs much where lists are short, and lists first where they are full (docs/DESIGN-PASS.md, section 16).
fn is_unvisited(fixed: &[u8], other: &[u8], seen: Visited, d: ClassNumber) -> bool
    requires { (d.0 < class_limit) × (length fixed.now ≡ class_set) × (length other.now ≡ class_set) }
    ensures { result ≡ unvisited_in fixed.now other.now seen.bits d.0 }
{
    let at = d.0 / 8;
    let left = (fixed[at] | other[at]) & !seen.bits[at];
    left >> (d.0 % 8) & 1 == 1
}

// The first number from start on, below n, that is in one of two sets and not visited.
fn first_unvisited(
    fixed: &[u8],
    other: &[u8],
    seen: Visited,
    start: usize,
    n: usize,
) -> Option<ClassNumber>
    requires { (n ≤ class_limit) × (length fixed.now ≡ class_set) × (length other.now ≡ class_set) }
    ensures { result ≡ first_class n (from start (unvisited_in fixed.now other.now seen.bits)) }
{
    for d in start..n {
        let next = class_at(d);
        if is_unvisited(fixed, other, seen, next) {
            return Some(next);
        }
    }
    None
}

// The first auxiliary of c from number start on that has a row and is not visited.
fn next_unvisited(
    classes: &[u8],
    c: ClassNumber,
    start: usize,
    seen: Visited,
) -> Option<ClassNumber>
    requires readable { Readable classes.now }
    requires c_bound { c.0 < (table_in Classes classes.now).count }
    ensures { result ≡ next_unvisited (table_in Classes classes.now) (member seen.bits) c.0 start }
{
    let row = class_row(classes, c);
    let n = row_count(TableId::Classes, classes);
    first_unvisited(fixed_auxiliary(row), open_auxiliary(row), seen, start, n)
}

// Adds to seen what c reaches over classes that are not visited.
// Two tests: in one with || the facts of each way out are lost to the proof, which got longer (tried).
#[cycle(visit_walk)]
fn visit(classes: &[u8], c: ClassNumber, seen: Visited) -> Visited
    requires { Readable classes.now }
    ensures { result.bits ≡ set_of class_set (after_visit (table_in Classes classes.now) (member seen.bits) c.0) }
{
    if row_count(TableId::Classes, classes) <= c.0 {
        return seen;
    }
    if seen.has(c) {
        return seen;
    }
    let marked = seen.with(c);
    let above = superclass(class_row(classes, c));
    let Some(up) = above else {
        return walk(classes, c, 0, marked);
    };
    let more = visit(classes, up, marked);
    walk(classes, c, 0, more)
}

// Visits the auxiliaries of c from number start on. Only classes not yet visited are taken up, so that a walk never goes deeper than there are
// classes.
#[cycle(visit_walk)]
fn walk(classes: &[u8], c: ClassNumber, start: usize, seen: Visited) -> Visited
    requires readable { Readable classes.now }
    requires c_bound { c.0 < (table_in Classes classes.now).count }
    ensures { result.bits ≡ set_of class_set (after_walk (table_in Classes classes.now) (member seen.bits) c.0 start) }
{
    let next = next_unvisited(classes, c, start, seen);
    let Some(d) = next else {
        return seen;
    };
    let more = visit(classes, d, seen);
    walk(classes, c, d.0 + 1, more)
}

// The classes that c reaches.
pub fn reached(classes: &[u8], c: ClassNumber) -> Visited
    requires { Readable classes.now }
    ensures { result.bits ≡ set_of class_set (reaches (table_in Classes classes.now) c.0) }
{
    visit(classes, c, Visited::none())
}
