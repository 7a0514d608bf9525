// The lines of the classes.
ghost use Rattle.std.specs.Prelude.{◌≡◌, ◌+◌, ◌≤◌, ◌<◌, ◌++◌, length};
ghost use Rattle.schema.specs.Numbers.{class_limit};
ghost use Rattle.schema.specs.Layout.{common_width, arc_limit, attribute_set, closure_width, closure_length};
ghost use Rattle.schema.specs.Row.{arc_count};
ghost use Rattle.schema.specs.Store.{table_in};
ghost use Rattle.schema.specs.declared.number.TableId.TheVariants.{Classes};
ghost use Rattle.tables.specs.Shaped.{TableShaped};
ghost use Rattle.list_text.specs.Listing.{kept_count, kept_counts, arc_text, identifier_text, class_line, class_lines, text_length, ListedClass};

use crate::text::{LINE_FEED, SPACE, Text};
use prelude::part::part_of;
use schema::layout::{ALLOWED, ATTRIBUTE_SET, DEMANDED};
use schema::number::{ClassNumber, TableId, class_at};
use schema::row::{arc, arc_count, name};
use schema::store::{class_row, closure_row, row_count};
use sets::count;

// How many attributes a kept set of a class has: the mandatory one at DEMANDED, the optional one at ALLOWED.
fn kept_count(closure: &[u8], c: ClassNumber, at: usize) -> usize
    requires { (closure_length ≤ length closure.now) × (c.0 < class_limit) × (at + attribute_set ≤ closure_width) }
    ensures { result ≡ kept_count at closure.now c.0 }
{
    count(part_of(closure_row(closure, c), at, ATTRIBUTE_SET))
}

// Puts arc k of an object identifier, with a dot before each but the first.
fn put_arc(row: &[u8], k: usize, text: &mut Text)
    requires { (common_width ≤ length row.now) × (k < arc_limit) × (length text.old + length (arc_text row.now k) ≤ text_length) }
    ensures { text.new ≡ text.old ++ arc_text row.now k }
{
    if k > 0 {
        text.put_byte(b'.');
    }
    text.put_decimal(arc(row, k) as usize);
}

// Puts an object identifier.
fn put_identifier(row: &[u8], text: &mut Text)
    requires { (common_width ≤ length row.now) × (arc_count row.now ≤ arc_limit) × (length text.old + length (identifier_text row.now) ≤ text_length) }
    ensures { text.new ≡ text.old ++ identifier_text row.now }
{
    let n = arc_count(row);
    for k in 0..n {
        put_arc(row, k, text);
    }
}

// Puts the line of one class.
fn put_class(classes: &[u8], closure: &[u8], c: ClassNumber, text: &mut Text)
    requires { ListedClass classes.now closure.now c.0
        × (length text.old + length (class_line (kept_counts closure.now) (table_in Classes classes.now) c.0) ≤ text_length) }
    ensures { text.new ≡ text.old ++ class_line (kept_counts closure.now) (table_in Classes classes.now) c.0 }
{
    let row = class_row(classes, c);
    text.put_number(c.0, SPACE);
    text.put_word(name(row), SPACE);
    put_identifier(row, text);
    text.put_byte(SPACE);
    text.put_number(kept_count(closure, c, DEMANDED), SPACE);
    text.put_number(kept_count(closure, c, ALLOWED), LINE_FEED);
}

// Puts the lines of all classes, defunct too.
pub fn put_classes(classes: &[u8], closure: &[u8], text: &mut Text)
    requires { TableShaped Classes classes.now × (closure_length ≤ length closure.now)
        × (length text.old + length (class_lines (kept_counts closure.now) (table_in Classes classes.now)) ≤ text_length) }
    ensures { text.new ≡ text.old ++ class_lines (kept_counts closure.now) (table_in Classes classes.now) }
{
    let n = row_count(TableId::Classes, classes);
    for c in 0..n {
        put_class(classes, closure, class_at(c), text);
    }
}
