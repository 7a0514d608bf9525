// Display names and object identifiers by themselves: rules 12 and 14, and the comparison of two names. Names are compared in place, as parts of
// the lent stores.
// Rows are plain slices, since name_invalid and identifier_invalid ask of their callers what they asked.
#![tactic(auto)]

ghost use Rattle.std.specs.Prelude.{◌≡◌, ◌≤◌, length};
ghost use Rattle.schema.specs.Layout.{common_width, name_limit};
ghost use Rattle.schema.specs.Row.{name_length};
ghost use Rattle.rules_names.specs.Name.{is_name_byte, folded, valid_name, same_name, name_invalid, identifier_invalid};

use schema::row::{arc, arc_count, name};

fn is_name_byte(b: u8) -> bool
    ensures { result ≡ is_name_byte b }
{
    b.is_ascii_alphanumeric() || b == b'-'
}

// "a letter, then letters, digits or hyphens"
pub fn is_valid_name(name: &[u8]) -> bool
    ensures { result ≡ valid_name name.now }
{
    let Some(first) = name.first() else {
        return false;
    };
    first.is_ascii_alphabetic() && name.iter().all(|b| is_name_byte(*b))
}

// A to Z as a to z, every other byte as it is.
pub fn fold(x: u8) -> u8
    ensures { result ≡ folded x }
{
    x.to_ascii_lowercase()
}

// Whether two names are the same, case aside.
pub fn same_name(s: &[u8], t: &[u8]) -> bool
    ensures { result ≡ same_name s.now t.now }
{
    s.eq_ignore_ascii_case(t)
}

// Whether a row breaks rule 12.
pub fn name_invalid(row: &[u8]) -> bool
    requires { (common_width ≤ length row.now) × (name_length row.now ≤ name_limit) }
    ensures { result ≡ name_invalid row.now }
{
    !is_valid_name(name(row))
}

// Whether a row breaks rule 14.
pub fn identifier_invalid(row: &[u8]) -> bool
    requires { common_width ≤ length row.now }
    ensures { result ≡ identifier_invalid row.now }
{
    if arc_count(row) < 2 {
        return true;
    }
    match arc(row, 0) {
        0 | 1 => 39 < arc(row, 1),
        first => 2 < first,
    }
}
