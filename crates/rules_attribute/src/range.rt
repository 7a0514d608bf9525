// Rule 25: "Both ranges present", and, as document 02 has it, "only where rangeLower is greater than rangeUpper".
ghost use Rattle.std.specs.Prelude.{◌≡◌, ◌≤◌, length};
ghost use Rattle.schema.specs.Layout.{attribute_width};
ghost use Rattle.rules_attribute.specs.Range.{less_signed, range_wrong};

use schema::attribute::{range_lower, range_upper};

fn less_signed(a: u32, b: u32) -> bool
    ensures { result ≡ less_signed a b }
{
    a.cast_signed() < b.cast_signed()
}

// Whether a row breaks rule 25.
#[tactic(auto, unfolding(crate::specs::Range::range_wrong, crate::specs::Range::ends_crossed))]
pub fn range_wrong(row: &[u8]) -> bool
    requires { attribute_width ≤ length row.now }
    ensures { result ≡ range_wrong row.now }
{
    let (Some(lower), Some(upper)) = (range_lower(row), range_upper(row)) else {
        return false;
    };
    less_signed(upper, lower)
}
