// Reads a change. Document 01: "A change is one field".
ghost use Rattle.std.specs.Prelude.{◌≡◌, ◌≤◌, eqb, length};
ghost use Rattle.prelude.specs.Part.{zeros};
ghost use Rattle.schema.specs.Layout.{class_width};
ghost use Rattle.change_read.specs.Reading.{change_of, format_of, read_value, read_change, Came};

use reader::step_at;
use rows_format::format::Format;
use rows_read::read::read_row;
use schema::number::TableId;
use wire::BadField;

// What a change asks for.
#[derive(Clone, Copy)]
pub enum Change {
    Add(TableId),
    SetRange,
    Rename(TableId),
    Deactivate(TableId),
    Reactivate(TableId),
    AddEntry,
    RemoveEntry,
}

// The tags of changes.
pub const ADD_ATTRIBUTE: u8 = 0x40;

pub const ADD_CLASS: u8 = 0x41;

pub const SET_RANGE: u8 = 0x42;

pub const RENAME_ATTRIBUTE: u8 = 0x43;

pub const RENAME_CLASS: u8 = 0x44;

pub const DEACTIVATE_ATTRIBUTE: u8 = 0x45;

pub const DEACTIVATE_CLASS: u8 = 0x46;

pub const REACTIVATE_ATTRIBUTE: u8 = 0x47;

pub const REACTIVATE_CLASS: u8 = 0x48;

pub const ADD_ENTRY: u8 = 0x49;

pub const REMOVE_ENTRY: u8 = 0x4A;

// The change that a tag stands for, if it is that of one.
// An Option, as the definition has it: the error of a TryFrom would say no more of another tag.
#[tactic(auto, unfolding(crate::specs::Reading::change_of))]
fn change_of(tag: u8) -> Option<Change>
    ensures { result ≡ change_of tag }
{
    match tag {
        ADD_ATTRIBUTE => Some(Change::Add(TableId::Attributes)),
        ADD_CLASS => Some(Change::Add(TableId::Classes)),
        SET_RANGE => Some(Change::SetRange),
        RENAME_ATTRIBUTE => Some(Change::Rename(TableId::Attributes)),
        RENAME_CLASS => Some(Change::Rename(TableId::Classes)),
        DEACTIVATE_ATTRIBUTE => Some(Change::Deactivate(TableId::Attributes)),
        DEACTIVATE_CLASS => Some(Change::Deactivate(TableId::Classes)),
        REACTIVATE_ATTRIBUTE => Some(Change::Reactivate(TableId::Attributes)),
        REACTIVATE_CLASS => Some(Change::Reactivate(TableId::Classes)),
        ADD_ENTRY => Some(Change::AddEntry),
        REMOVE_ENTRY => Some(Change::RemoveEntry),
        _ => None,
    }
}

// What the value of a change is read as.
// No From: several changes have one format, and the definition of this name says which.
#[tactic(auto, unfolding(crate::specs::Reading::format_of))]
fn format_of(change: Change) -> Format
    ensures { result ≡ format_of change }
{
    match change {
        Change::Add(table) => Format::NewRow(table),
        Change::SetRange => Format::Range,
        Change::Rename(_) => Format::Name,
        Change::Deactivate(_) | Change::Reactivate(_) => Format::Target,
        Change::AddEntry | Change::RemoveEntry => Format::Entry,
    }
}

// Bytes and places stand apart, as read_row takes them.
// The value of a change, and nothing behind it: last says that the bytes end there. Leftover bytes are told by their start.
fn read_value(
    change: Change,
    s: &[u8],
    start: usize,
    stop: usize,
    last: bool,
    row: &mut [u8],
) -> Result<Change, BadField>
    requires { (start ≤ stop) × (stop ≤ length s.now) × (row.old ≡ zeros class_width) × (last ≡ eqb stop (length s.now)) }
    ensures { Came result row.new (read_value change s.now start stop) }
{
    read_row(format_of(change), s, start, stop, row)?;
    if last {
        return Ok(change);
    }
    Err(BadField { at: stop })
}

// Reads a change into a scratch row of zeros: what it asks for, or the place of the first field that cannot be accepted, of a missing field or of leftover
// bytes. The row then holds what the change carries; after a refusal, what was stored before it.
pub fn read_change(s: &[u8], row: &mut [u8]) -> Result<Change, BadField>
    requires { row.old ≡ zeros class_width }
    ensures { Came result row.new (read_change s.now) }
{
    let step = step_at(s, 0);
    let Some(field) = step.field? else {
        return Err(BadField { at: 0 });
    };
    let Some(change) = change_of(field.tag) else {
        return Err(BadField { at: 0 });
    };
    read_value(change, s, field.start, field.end, step.last, row)
}
