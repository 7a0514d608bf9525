// Reads a sheet from left to right. Document 01: "Sheet: field 01 holding 01, attribute rows 20, class rows 30"; it "gives 4 or 6, whichever comes first".
// Bytes and places stand apart, as rows_read's read_row, which docs/NUMBERS.md names, takes them; and so do the two stores, which C lends to read_sheet.
ghost use Rattle.std.specs.Prelude.{◌≡◌, ◌<◌, ◌≤◌, length};
ghost use Rattle.prelude.specs.Part.{zeros};
ghost use Rattle.schema.specs.Store.{count_in, store_of};
ghost use Rattle.schema.specs.Numbers.{limit};
ghost use Rattle.schema.specs.Layout.{store_length, class_width};
ghost use Rattle.sheet_read.specs.declared.read.SheetError.TheVariants.{Bad};
ghost use Rattle.sheet_read.specs.Held.{HasRoom, Left, Lent, Open, Steps, room_in, store_with};
ghost use Rattle.sheet_read.specs.Reading.{take_heading, is_heading, read_sheet, row_out, take_table_row, row_turn, rows_open, sheet_tag};
ghost use Rattle.sheet_read.specs.Reading.{take_field, take_tagged};

use prelude::number::byte_at;
use reader::{ends_at, step_at};
use rows_format::format::Format;
use rows_read::read::read_row;
use schema::layout::{CLASS_WIDTH, row_width, store_length};
use schema::number::{TableId, row_limit};
use schema::store::{row_count, store_of};
use tables::store::{empty, push_row};
use wire::BadField;

// Why a sheet is not read.
#[derive(Clone, Copy, PartialEq, Eq)]
pub enum SheetError {
    // The first field that cannot be accepted, by its place; or the end of the sheet where the heading is missing.
    Bad { at: usize },
    // No free row in a table.
    Full { table: TableId },
}

impl From<BadField> for SheetError {
    ghost from_gives = { λ bad error. error ≡ Bad bad.at };

    fn from(bad: BadField) -> SheetError {
        SheetError::Bad { at: bad.at }
    }
}

// What a tag of a sheet stands for.
#[derive(Clone, Copy)]
pub enum SheetTag {
    Heading,
    Row(TableId),
}

// What may come next: everything, or the rows of a table and of those behind it.
#[derive(Clone, Copy)]
pub enum Phase {
    Start,
    InRows(TableId),
}

// Where reading goes on, how far it has come, and whether the heading is missing so far.
#[derive(Clone, Copy)]
pub struct Progress {
    pub at: usize,
    pub phase: Phase,
    pub missing: bool,
}

// The tags of a sheet.
pub const HEADING: u8 = 0x01;

pub const ATTRIBUTE: u8 = 0x20;

pub const CLASS: u8 = 0x30;

// What a tag stands for, if it is one of a sheet.
// An Option, as the definition has it: the error of a TryFrom would say no more of another tag.
#[tactic(auto, unfolding(crate::specs::Reading::sheet_tag))]
fn sheet_tag(tag: u8) -> Option<SheetTag>
    ensures { result ≡ sheet_tag tag }
{
    match tag {
        HEADING => Some(SheetTag::Heading),
        ATTRIBUTE => Some(SheetTag::Row(TableId::Attributes)),
        CLASS => Some(SheetTag::Row(TableId::Classes)),
        _ => None,
    }
}

// Whether the rows of a table may come: attribute rows all before class rows.
#[tactic(auto, unfolding(crate::specs::Reading::rows_open, crate::specs::Reading::position))]
fn rows_open(phase: Phase, table: TableId) -> bool
    ensures { result ≡ rows_open phase table }
{
    !matches!(
        (phase, table),
        (Phase::InRows(TableId::Classes), TableId::Attributes)
    )
}

// Whether a field's value is that of the heading.
#[tactic(auto, unfolding(crate::specs::Reading::is_heading))]
fn is_heading(s: &[u8], start: usize, stop: usize) -> bool
    requires { (start ≤ stop) × (stop ≤ length s.now) }
    ensures { result ≡ is_heading s.now start stop }
{
    stop - start == 1 && byte_at(s, start) == 1
}

// The heading, before all rows.
fn take_heading(
    s: &[u8],
    at: usize,
    start: usize,
    stop: usize,
    phase: Phase,
) -> Result<Progress, SheetError>
    requires { (start ≤ stop) × (stop ≤ length s.now) }
    ensures { result ≡ take_heading s.now at start stop phase }
{
    match phase {
        Phase::Start if is_heading(s, start, stop) => Ok(Progress {
            at: stop,
            phase: Phase::InRows(TableId::Attributes),
            missing: false,
        }),
        _ => Err(SheetError::Bad { at }),
    }
}

// Reads a row into a scratch row, and puts it last in its table once it is read.
fn read_into(
    table: TableId,
    s: &[u8],
    start: usize,
    stop: usize,
    scratch: &mut [u8],
    store: &mut [u8],
) -> Result<(), BadField>
    requires start_le_stop { (start ≤ stop) × (stop ≤ length s.now) × (scratch.old ≡ zeros class_width) }
    requires table_in_bounds { (store_length table ≤ length store.old) × (count_in table store.old < limit table) }
    ensures { (result ≡ (row_out table s.now start stop).answer)
        × (store.new ≡ store_with table (row_out table s.now start stop) store.old) }
{
    let width = row_width(table);
    read_row(Format::Row(table), s, start, stop, &mut scratch[0..width])?;
    push_row(table, store, &scratch[0..width]);
    Ok(())
}

// Whether the row that a tag announces has room in its table.
#[tactic(auto, unfolding(crate::specs::Held::room_in))]
fn room_in<'a>(
    tag: Option<SheetTag>,
    attributes: &'a [u8],
    classes: &'a [u8],
) -> Result<(), SheetError>
    requires { Lent attributes.now classes.now }
    ensures { result ≡ room_in tag attributes.now classes.now }
{
    match tag {
        Some(SheetTag::Row(table)) => {
            if row_count(table, store_of(table, attributes, classes)) == row_limit(table) {
                Err(SheetError::Full { table })
            } else {
                Ok(())
            }
        }
        Some(SheetTag::Heading) | None => Ok(()),
    }
}

// A row, put into a store.
fn take_row(
    table: TableId,
    s: &[u8],
    start: usize,
    stop: usize,
    missing: bool,
    store: &mut [u8],
) -> Result<Progress, SheetError>
    requires start_le_stop { (start ≤ stop) × (stop ≤ length s.now) }
    requires table_in_bounds { (store_length table ≤ length store.old) × (count_in table store.old < limit table) }
    ensures { (result ≡ row_turn table stop missing (row_out table s.now start stop).answer)
        × (store.new ≡ store_with table (row_out table s.now start stop) store.old) }
{
    let mut scratch = [0u8; CLASS_WIDTH];
    read_into(table, s, start, stop, &mut scratch, store)?;
    Ok(Progress {
        at: stop,
        phase: Phase::InRows(table),
        missing,
    })
}

// A row, put into the store of its table.
fn take_table_row(
    table: TableId,
    s: &[u8],
    start: usize,
    stop: usize,
    missing: bool,
    attributes: &mut [u8],
    classes: &mut [u8],
) -> Result<Progress, SheetError>
    requires start_le_stop { (start ≤ stop) × (stop ≤ length s.now) }
    requires lent { Lent attributes.old classes.old × (count_in table (store_of table attributes.old classes.old) < limit table) }
    ensures { Steps (take_table_row table s.now start stop missing) attributes.old classes.old result
        attributes.new classes.new }
{
    match table {
        TableId::Attributes => take_row(table, s, start, stop, missing, attributes),
        TableId::Classes => take_row(table, s, start, stop, missing, classes),
    }
}

// A whole field by what its tag stands for.
fn take_tagged(
    tag: Option<SheetTag>,
    s: &[u8],
    progress: Progress,
    start: usize,
    stop: usize,
    attributes: &mut [u8],
    classes: &mut [u8],
) -> Result<Progress, SheetError>
    requires start_le_stop { (start ≤ stop) × (stop ≤ length s.now) }
    requires lent { Lent attributes.old classes.old × HasRoom tag attributes.old classes.old }
    ensures { Steps (take_tagged tag s.now progress.at progress.phase progress.missing start stop) attributes.old classes.old result
        attributes.new classes.new }
{
    let at = progress.at;
    let phase = progress.phase;
    let missing = progress.missing;
    match tag {
        Some(SheetTag::Heading) => take_heading(s, at, start, stop, phase),
        Some(SheetTag::Row(table)) => {
            if rows_open(phase, table) {
                take_table_row(table, s, start, stop, missing, attributes, classes)
            } else {
                Err(SheetError::Bad { at })
            }
        }
        None => Err(SheetError::Bad { at }),
    }
}

// The field at the place of the sheet: 6 looks at its tag alone, and reading goes on where the reader stands past it.
fn take_field(
    s: &[u8],
    progress: Progress,
    attributes: &mut [u8],
    classes: &mut [u8],
) -> Result<Progress, SheetError>
    requires { (progress.at < length s.now) × Open attributes.old classes.old }
    ensures { Steps (take_field s.now progress.at progress.phase progress.missing) attributes.old classes.old result attributes.new
        classes.new }
{
    let step = step_at(s, progress.at);
    let tag = sheet_tag(step.tag);
    room_in(tag, attributes, classes)?;
    let Some(field) = step.field? else {
        return Err(SheetError::Bad { at: progress.at });
    };
    take_tagged(
        tag,
        s,
        progress,
        field.start,
        step.next,
        attributes,
        classes,
    )
}

// Reads a sheet into the tables' stores, emptied first. They then hold the rows that were read, also those before a refusal.
pub fn read_sheet(s: &[u8], attributes: &mut [u8], classes: &mut [u8]) -> Result<(), SheetError>
    requires { Lent attributes.old classes.old }
    ensures { Left (read_sheet s.now) attributes.old classes.old result attributes.new classes.new }
{
    empty(attributes, store_length(TableId::Attributes));
    empty(classes, store_length(TableId::Classes));
    let mut progress = Progress {
        at: 0,
        phase: Phase::Start,
        missing: true,
    };
    // No count: each turn goes on behind a field of its own length.
    while !ends_at(s, progress.at) {
        progress = take_field(s, progress, attributes, classes)?;
    }
    if progress.missing {
        return Err(SheetError::Bad { at: progress.at });
    }
    Ok(())
}
