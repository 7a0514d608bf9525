// What the program prints for a sheet.
ghost use Rattle.std.specs.Prelude.{◌≡◌, [], ◌≤◌, length};
ghost use Rattle.prelude.specs.Written.{WrittenAt};
ghost use Rattle.schema.specs.Layout.{closure_length};
ghost use Rattle.schema.specs.Store.{table_in};
ghost use Rattle.schema.specs.declared.number.TableId.TheVariants.{Classes};
ghost use Rattle.tables.specs.Shaped.{TableShaped};
ghost use Rattle.tables.specs.Filled.{empty_stores};
ghost use Rattle.keeper.specs.Load.{load};
ghost use Rattle.list_text.specs.Listing.{kept_counts, listing, refused_line, loaded_text, listed};

use crate::class::put_classes;
use crate::text::{LINE_FEED, SPACE, Text};
use keeper::load::load;
use prelude::part::put_bytes;
use schema::answer::Answer;
use schema::layout::{ARC_LIMIT, ATTRIBUTES_LENGTH, CLASSES_LENGTH, CLOSURE_LENGTH, NAME_LIMIT};
use schema::number::ClassNumber;
use schema::refusal::DONE;

// "at most 32,768 bytes"
pub const SHEET_LIMIT: usize = 32768;

// The head line, and the longest line of a class: 3 digits, the longest name, arcs of at most 10 digits and a dot, 3 and 3 digits, a byte behind each.
const HEAD: usize = 21;

const LINE: usize = 3 + NAME_LIMIT + 11 * ARC_LIMIT + 3 + 3 + 5;

// Room for the longest text.
pub const TEXT_LENGTH: usize = HEAD + LINE * ClassNumber::LIMIT;

// Puts the listing.
fn put_listing(classes: &[u8], closure: &[u8], text: &mut Text)
    requires { TableShaped Classes classes.now × (closure_length ≤ length closure.now) × (text.old ≡ []) }
    ensures { text.new ≡ listing (kept_counts closure.now) (table_in Classes classes.now) }
{
    text.put(b"no name oid must may\n");
    put_classes(classes, closure, text);
}

// Puts the line for a refusal.
fn put_refused(answer: Answer, text: &mut Text)
    requires { text.old ≡ [] }
    ensures { text.new ≡ refused_line answer }
{
    text.put_word(b"refused", SPACE);
    text.put_number(answer.number as usize, SPACE);
    text.put_number(answer.table as usize, SPACE);
    text.put_number(answer.place, LINE_FEED);
}

// Loads a sheet into stores of its own, and puts what came of it.
fn put_loaded(sheet: &[u8], text: &mut Text)
    requires { text.old ≡ [] }
    ensures { text.new ≡ loaded_text (load sheet.now empty_stores) }
{
    let mut attributes = [0u8; ATTRIBUTES_LENGTH];
    let mut classes = [0u8; CLASSES_LENGTH];
    let mut closure = [0u8; CLOSURE_LENGTH];
    let answer = load(sheet, &mut attributes, &mut classes, &mut closure);
    // The number that load gives C too: its contract stays as it is, so no Result.
    if answer.number == DONE {
        put_listing(&classes, &closure, text);
    } else {
        put_refused(answer, text);
    }
}

// Puts the text for a sheet.
fn put_listed(sheet: &[u8], text: &mut Text)
    requires { text.old ≡ [] }
    ensures { text.new ≡ listed sheet.now }
{
    if sheet.len() > SHEET_LIMIT {
        text.put(b"too long\n");
    } else {
        put_loaded(sheet, text);
    }
}

// Writes the text for a sheet to the front of out, and gives its length. It is public: who calls it has an array, and no Text.
pub fn list(sheet: &[u8], out: &mut [u8; TEXT_LENGTH]) -> usize
    ensures { WrittenAt (listed sheet.now) 0 result out.old out.new }
{
    let mut text = Text::new();
    put_listed(sheet, &mut text);
    put_bytes(text.as_slice(), out, 0)
}
