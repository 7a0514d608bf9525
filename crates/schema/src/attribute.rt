// The other fields of an attribute row.
// A row is a plain slice, as in row.rt; each field has a function, as in class.rt.
ghost use Rattle.std.specs.Prelude.{◌≡◌, ◌+◌, ◌≤◌, length};
ghost use Rattle.schema.specs.Layout.{attribute_width, object_class_limit};
ghost use Rattle.schema.specs.AttributeRow.{syntax_of, om_syntax_of, object_class_length, object_class_of, is_single_valued, bound_at, range_lower};
ghost use Rattle.schema.specs.AttributeRow.{range_upper, link_of, mapi_of};

use crate::layout::{
    LINK, MAPI, OBJECT_CLASS, OM_SYNTAX, RANGE_LOWER, RANGE_UPPER, SINGLE_VALUED, SYNTAX,
};
use crate::row::{counted, flag};
use prelude::number::{byte_at, read_u32};

pub fn syntax(row: &[u8]) -> u8
    requires { attribute_width ≤ length row.now }
    ensures { result ≡ syntax_of row.now }
{
    byte_at(row, SYNTAX)
}

pub fn om_syntax(row: &[u8]) -> u8
    requires { attribute_width ≤ length row.now }
    ensures { result ≡ om_syntax_of row.now }
{
    byte_at(row, OM_SYNTAX)
}

pub fn object_class(row: &[u8]) -> &[u8]
    requires { (attribute_width ≤ length row.now) × (object_class_length row.now ≤ object_class_limit) }
    ensures { result.now ≡ object_class_of row.now }
{
    counted(row, OBJECT_CLASS)
}

pub fn is_single_valued(row: &[u8]) -> bool
    requires { attribute_width ≤ length row.now }
    ensures { result ≡ is_single_valued row.now }
{
    flag(row, SINGLE_VALUED)
}

// The end of a range whose present byte is at a place: the four bytes of a signed number, most significant first, where there is one.
fn bound_at(row: &[u8], at: usize) -> Option<u32>
    requires { at + 5 ≤ length row.now }
    ensures { result ≡ bound_at at row.now }
{
    if flag(row, at) {
        return Some(read_u32(row, at + 1));
    }
    None
}

pub fn range_lower(row: &[u8]) -> Option<u32>
    requires { attribute_width ≤ length row.now }
    ensures { result ≡ range_lower row.now }
{
    bound_at(row, RANGE_LOWER)
}

pub fn range_upper(row: &[u8]) -> Option<u32>
    requires { attribute_width ≤ length row.now }
    ensures { result ≡ range_upper row.now }
{
    bound_at(row, RANGE_UPPER)
}

pub fn link(row: &[u8]) -> u32
    requires { attribute_width ≤ length row.now }
    ensures { result ≡ link_of row.now }
{
    read_u32(row, LINK)
}

pub fn mapi(row: &[u8]) -> u32
    requires { attribute_width ≤ length row.now }
    ensures { result ≡ mapi_of row.now }
{
    read_u32(row, MAPI)
}
