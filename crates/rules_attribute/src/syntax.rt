// Rules 26 and 27: which oMSyntax goes with an attributeSyntax, and which oMObjectClass with oMSyntax 127.
ghost use Rattle.std.specs.Prelude.{◌≡◌, ◌≤◌, length};
ghost use Rattle.schema.specs.Layout.{attribute_width, object_class_limit};
ghost use Rattle.schema.specs.AttributeRow.{object_class_length};
ghost use Rattle.rules_attribute.specs.Syntax.{syntax_fits, syntax_wrong, object_class_wrong};

use schema::attribute::{object_class, om_syntax, syntax};
use schema::object_classes::object_class_fits;

// The pairs of a syntax and an oMSyntax that match. They stay the papers' numbers: a row may hold any byte, so an enum would need an unknown one too.
const PAIRS: [(u8, u8); 20] = [
    (1, 127),
    (2, 6),
    (3, 27),
    (4, 20),
    (5, 19),
    (5, 22),
    (6, 18),
    (7, 127),
    (8, 1),
    (9, 2),
    (9, 10),
    (10, 4),
    (11, 23),
    (11, 24),
    (12, 64),
    (13, 127),
    (14, 127),
    (15, 66),
    (16, 65),
    (17, 4),
];

fn syntax_fits(syntax: u8, om: u8) -> bool
    ensures { result ≡ syntax_fits syntax om }
{
    PAIRS.contains(&(syntax, om))
}

// Whether a row breaks rule 26.
#[tactic(auto, unfolding(crate::specs::Syntax::syntax_wrong))]
pub fn syntax_wrong(row: &[u8]) -> bool
    requires { attribute_width ≤ length row.now }
    ensures { result ≡ syntax_wrong row.now }
{
    !syntax_fits(syntax(row), om_syntax(row))
}

// Whether a row breaks rule 27.
#[tactic(auto, unfolding(crate::specs::Syntax::object_class_wrong))]
pub fn object_class_wrong(row: &[u8]) -> bool
    requires { (attribute_width ≤ length row.now) × (object_class_length row.now ≤ object_class_limit) }
    ensures { result ≡ object_class_wrong row.now }
{
    om_syntax(row) == 127 && !object_class_fits(syntax(row), object_class(row))
}
