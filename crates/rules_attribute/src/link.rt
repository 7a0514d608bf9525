// Rule 29: "An odd linkID without a live attribute holding the number one less; 1 never has one." Rule 45: "a present even linkID needs 2.5.5.1, 2.5.5.7 or
// 2.5.5.14, an odd one 2.5.5.1".
ghost use Rattle.std.specs.Prelude.{◌≡◌, ◌≤◌, ◌<◌, length};
ghost use Rattle.schema.specs.Layout.{attribute_width};
ghost use Rattle.schema.specs.Store.{table_in};
ghost use Rattle.schema.specs.declared.number.TableId.TheVariants.{Attributes};
ghost use Rattle.tables.specs.Shaped.{TableShaped};
ghost use Rattle.rules_attribute.specs.Links.{is_forward_of, is_live_forward, has_forward, forward_missing, link_syntax_fits, link_syntax_wrong};

use schema::attribute::{link, syntax};
use schema::number::{AttributeNumber, RowId, TableId, attribute_at};
use schema::store::{attribute_row, row_count};
use tables::live::is_live;

// Whether a row holds the number one less than a back link's.
#[tactic(auto, unfolding(crate::specs::Links::is_forward_of))]
pub fn is_forward_of(back: &[u8], row: &[u8]) -> bool
    requires { (attribute_width ≤ length back.now) × (attribute_width ≤ length row.now) }
    ensures { result ≡ is_forward_of back.now row.now }
{
    let n = link(row);
    n != 0 && link(back).checked_sub(1) == Some(n)
}

// Whether attribute j is the forward link of a back link, and live for it.
fn is_live_forward(attributes: &[u8], back: &[u8], j: AttributeNumber) -> bool
    requires { TableShaped Attributes attributes.now × (attribute_width ≤ length back.now) × (j.0 < (table_in Attributes attributes.now).count) }
    ensures { result ≡ is_live_forward (table_in Attributes attributes.now) back.now j.0 }
{
    is_forward_of(back, attribute_row(attributes, j))
        && is_live(attributes, back, RowId::Attribute(j))
}

// Whether some attribute is the forward link of a back link, and live for it.
fn has_forward(attributes: &[u8], back: &[u8]) -> bool
    requires { TableShaped Attributes attributes.now × (attribute_width ≤ length back.now) }
    ensures { result ≡ has_forward (table_in Attributes attributes.now) back.now }
{
    let n = row_count(TableId::Attributes, attributes);
    (0..n).any(|j| is_live_forward(attributes, back, attribute_at(j)))
}

// Whether a row breaks rule 29.
#[tactic(auto, unfolding(crate::specs::Links::forward_missing, crate::specs::Links::is_back_link))]
pub fn forward_missing(attributes: &[u8], row: &[u8]) -> bool
    requires { TableShaped Attributes attributes.now × (attribute_width ≤ length row.now) }
    ensures { result ≡ forward_missing (table_in Attributes attributes.now) row.now }
{
    link(row) % 2 == 1 && !has_forward(attributes, row)
}

// Whether the syntax of a row is one that its linkID needs. Syntaxes are the papers' numbers, as in PAIRS.
#[tactic(auto, unfolding(crate::specs::Links::link_syntax_fits, crate::specs::Links::is_back_link))]
fn link_syntax_fits(row: &[u8]) -> bool
    requires { attribute_width ≤ length row.now }
    ensures { result ≡ link_syntax_fits row.now }
{
    let n = link(row);
    if n % 2 == 1 {
        return syntax(row) == 1;
    }
    n == 0 || matches!(syntax(row), 1 | 7 | 14)
}

// Whether a row breaks rule 45.
#[tactic(auto, unfolding(crate::specs::Links::link_syntax_wrong))]
pub fn link_syntax_wrong(row: &[u8]) -> bool
    requires { attribute_width ≤ length row.now }
    ensures { result ≡ link_syntax_wrong row.now }
{
    !link_syntax_fits(row)
}
