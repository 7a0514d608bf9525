// Fields that attribute rows and class rows share. A row is lent as a part of its store.
// A row is a plain slice with its width in the contracts: is_base and is_defunct, which docs/NUMBERS.md names, are lent one.
ghost use Rattle.std.specs.Prelude.{◌≡◌, ◌+◌, ◌≤◌, ◌<◌, length, get_or};
ghost use Rattle.schema.specs.Layout.{common_width, name_limit, arc_limit};
ghost use Rattle.schema.specs.Row.{flag_at, counted_at, name_length, name_of, arc_count, arc_of, identifier_of, guid_of, system_flags, is_base, is_defunct};

use crate::layout::{ARC_WIDTH, DEFUNCT, FLAGS, GUID, GUID_WIDTH, IDENTIFIER, NAME};
use prelude::number::{byte_at, read_u32};
use prelude::part::part_of;

// Whether the byte at a place, which is 0 or 1, is 1.
pub fn flag(row: &[u8], at: usize) -> bool
    requires { at < length row.now }
    ensures { result ≡ flag_at at row.now }
{
    byte_at(row, at) == 1
}

// Counted bytes: as many as the byte at a place says, behind it.
pub fn counted(row: &[u8], at: usize) -> &[u8]
    requires { at + 1 + get_or row.now at 0 ≤ length row.now }
    ensures { result.now ≡ counted_at at row.now }
{
    let n = byte_at(row, at) as usize;
    part_of(row, at + 1, n)
}

// The display name.
pub fn name(row: &[u8]) -> &[u8]
    requires { (common_width ≤ length row.now) × (name_length row.now ≤ name_limit) }
    ensures { result.now ≡ name_of row.now }
{
    counted(row, NAME)
}

// How many arcs the object identifier has.
pub fn arc_count(row: &[u8]) -> usize
    requires { common_width ≤ length row.now }
    ensures { result ≡ arc_count row.now }
{
    byte_at(row, IDENTIFIER) as usize
}

// Arc k of the object identifier.
pub fn arc(row: &[u8], k: usize) -> u32
    requires { (common_width ≤ length row.now) × (k < arc_limit) }
    ensures { result ≡ arc_of row.now k }
{
    read_u32(row, IDENTIFIER + 1 + ARC_WIDTH * k)
}

// The arcs of the object identifier, as bytes.
pub fn identifier(row: &[u8]) -> &[u8]
    requires { (common_width ≤ length row.now) × (arc_count row.now ≤ arc_limit) }
    ensures { result.now ≡ identifier_of row.now }
{
    part_of(row, IDENTIFIER + 1, ARC_WIDTH * arc_count(row))
}

// The schemaIDGUID.
pub fn guid(row: &[u8]) -> &[u8]
    requires { common_width ≤ length row.now }
    ensures { result.now ≡ guid_of row.now }
{
    part_of(row, GUID, GUID_WIDTH)
}

pub fn system_flags(row: &[u8]) -> u32
    requires { common_width ≤ length row.now }
    ensures { result ≡ system_flags row.now }
{
    read_u32(row, FLAGS)
}

// Whether systemFlags has 0x10.
pub fn is_base(row: &[u8]) -> bool
    requires { common_width ≤ length row.now }
    ensures { result ≡ is_base row.now }
{
    system_flags(row) / 16 % 2 == 1
}

pub fn is_defunct(row: &[u8]) -> bool
    requires { common_width ≤ length row.now }
    ensures { result ≡ is_defunct row.now }
{
    flag(row, DEFUNCT)
}
