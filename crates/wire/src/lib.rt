// Tagged fields. Document 01: "Tagged fields: one byte tag, two bytes length, value; numbers most significant byte first."
#![tactic(auto)]

ghost use Rattle.std.specs.Prelude.{◌≡◌, ◌+◌, ◌-◌, ◌≤◌, ◌<◌, length};
ghost use Rattle.prelude.specs.Part.{part, splice};
ghost use Rattle.wire.specs.Wire.{field_at, header_bytes, field_bytes};

use prelude::number::{read_u16, write_u16};

// A whole field: its value is the bytes from start up to end.
#[derive(Clone, Copy, Debug, PartialEq, Eq)]
pub struct Field {
    pub tag: u8,
    pub start: usize,
    pub end: usize,
}

// The first field that cannot be accepted, by the place of its tag; or the end of a value that lacks a field, or where leftover bytes begin.
#[derive(Clone, Copy, Debug, PartialEq, Eq)]
pub struct BadField {
    pub at: usize,
}

// How many bytes stand before a field's value.
pub const HEADER: usize = 3;

// The field at a place of the fields that end at end: none where nothing is left. One is bad that has fewer bytes than a header, or whose value runs past the
// end.
pub fn field_at(s: &[u8], at: usize, end: usize) -> Result<Option<Field>, BadField>
    requires { (at ≤ end) × (end ≤ length s.now) }
    ensures { result ≡ field_at s.now at end }
{
    if at == end {
        return Ok(None);
    }
    let left = end - at;
    if left < HEADER {
        return Err(BadField { at });
    }
    let len = read_u16(s, at + 1) as usize;
    if left - HEADER < len {
        return Err(BadField { at });
    }
    let start = at + HEADER;
    Ok(Some(Field {
        tag: s[at],
        start,
        end: start + len,
    }))
}

// A field's value, the bytes from start up to end, as a part.
pub fn value_of(s: &[u8], start: usize, end: usize) -> &[u8]
    requires { (start ≤ end) × (end ≤ length s.now) }
    ensures { result.now ≡ part start (end - start) s.now }
{
    &s[start..end]
}

// Writes the header of a field whose value has len bytes.
pub fn write_header(d: &mut [u8], at: usize, tag: u8, len: u16)
    requires { at + 3 ≤ length d.old }
    ensures { d.new ≡ splice at (header_bytes tag len) d.old }
{
    d[at] = tag;
    write_u16(d, at + 1, len);
}

// Writes a whole field.
pub fn write_field(d: &mut [u8], at: usize, tag: u8, value: &[u8])
    requires { (length value.now < 65536) × (at + 3 + length value.now ≤ length d.old) }
    ensures { d.new ≡ splice at (field_bytes tag value.now) d.old }
{
    write_header(d, at, tag, value.len() as u16);
    let start = at + HEADER;
    let end = start + value.len();
    d[start..end].copy_from_slice(value);
}
