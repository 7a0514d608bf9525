// The other fields of a class row. A row is a plain slice, as in row.rt.
ghost use Rattle.std.specs.Prelude.{◌≡◌, ◌≤◌, length};
ghost use Rattle.schema.specs.Numbers.{class_read};
ghost use Rattle.schema.specs.Layout.{class_width};
ghost use Rattle.schema.specs.ClassRow.{category_of, superclass_of, naming_of, mandatory_of, fixed_optional_of, open_optional_of, fixed_auxiliary_of};
ghost use Rattle.schema.specs.ClassRow.{open_auxiliary_of, fixed_superior_of, open_superior_of};

use crate::layout::{
    ATTRIBUTE_SET, CATEGORY, CLASS_SET, FIXED_AUXILIARY, FIXED_OPTIONAL, FIXED_SUPERIOR, MANDATORY,
    NAMING, OPEN_AUXILIARY, OPEN_OPTIONAL, OPEN_SUPERIOR, SUPERCLASS,
};
use crate::number::{AttributeNumber, ClassNumber};
use crate::row::flag;
use prelude::number::byte_at;
use prelude::part::part_of;

pub fn category(row: &[u8]) -> u8
    requires { class_width ≤ length row.now }
    ensures { result ≡ category_of row.now }
{
    byte_at(row, CATEGORY)
}

pub fn superclass(row: &[u8]) -> Option<ClassNumber>
    requires { class_width ≤ length row.now }
    ensures { result ≡ class_read (superclass_of row.now) }
{
    ClassNumber::new(byte_at(row, SUPERCLASS) as usize)
}

// What names a record of the class: an attribute (rDNAttID), or nothing.
pub fn naming_attribute(row: &[u8]) -> Option<AttributeNumber>
    requires { class_width ≤ length row.now }
    ensures { result ≡ naming_of row.now }
{
    if !flag(row, NAMING) {
        return None;
    }
    AttributeNumber::new(byte_at(row, NAMING + 1) as usize)
}

// The seven sets, each a part of the row.
// A function for each set: one with a const place would be called by the place and the width, which says less.

pub fn mandatory(row: &[u8]) -> &[u8]
    requires { class_width ≤ length row.now }
    ensures { result.now ≡ mandatory_of row.now }
{
    part_of(row, MANDATORY, ATTRIBUTE_SET)
}

pub fn fixed_optional(row: &[u8]) -> &[u8]
    requires { class_width ≤ length row.now }
    ensures { result.now ≡ fixed_optional_of row.now }
{
    part_of(row, FIXED_OPTIONAL, ATTRIBUTE_SET)
}

pub fn open_optional(row: &[u8]) -> &[u8]
    requires { class_width ≤ length row.now }
    ensures { result.now ≡ open_optional_of row.now }
{
    part_of(row, OPEN_OPTIONAL, ATTRIBUTE_SET)
}

pub fn fixed_auxiliary(row: &[u8]) -> &[u8]
    requires { class_width ≤ length row.now }
    ensures { result.now ≡ fixed_auxiliary_of row.now }
{
    part_of(row, FIXED_AUXILIARY, CLASS_SET)
}

pub fn open_auxiliary(row: &[u8]) -> &[u8]
    requires { class_width ≤ length row.now }
    ensures { result.now ≡ open_auxiliary_of row.now }
{
    part_of(row, OPEN_AUXILIARY, CLASS_SET)
}

pub fn fixed_superior(row: &[u8]) -> &[u8]
    requires { class_width ≤ length row.now }
    ensures { result.now ≡ fixed_superior_of row.now }
{
    part_of(row, FIXED_SUPERIOR, CLASS_SET)
}

pub fn open_superior(row: &[u8]) -> &[u8]
    requires { class_width ≤ length row.now }
    ensures { result.now ≡ open_superior_of row.now }
{
    part_of(row, OPEN_SUPERIOR, CLASS_SET)
}
