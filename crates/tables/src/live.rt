// Rows that a row may name. Document 01: "Where a rule says "live", the named row must exist, and must be active if the naming row is."
// Stores and rows are plain slices, since the functions that docs/NUMBERS.md names ask of their callers what they asked.
ghost use Rattle.std.specs.Prelude.{not, ◌||◌, ◌≡◌, ◌≤◌, length};
ghost use Rattle.schema.specs.Numbers.{table_of, number_of};
ghost use Rattle.schema.specs.Layout.{common_width};
ghost use Rattle.schema.specs.Row.{is_defunct};
ghost use Rattle.schema.specs.Store.{table_in};
ghost use Rattle.tables.specs.Live.{live};
ghost use Rattle.tables.specs.Shaped.{TableShaped};

use schema::number::{RowId, number_of, table_of};
use schema::row::is_defunct;
use schema::store::{row, row_count};

// Whether the state of a row lets another row, which is there, name it.
fn is_active_for(naming: &[u8], named: &[u8]) -> bool
    requires { (common_width ≤ length naming.now) × (common_width ≤ length named.now) }
    ensures { result ≡ (is_defunct naming.now || not (is_defunct named.now)) }
{
    is_defunct(naming) || !is_defunct(named)
}

// Whether a row of a table is live for the naming row.
#[tactic(auto, using(crate::proofs::Widths::common_within, schema::specs::StoreLaws::table_row_length), unfolding(crate::specs::Live::live))]
pub fn is_live(store: &[u8], naming: &[u8], id: RowId) -> bool
    requires { TableShaped (table_of id) store.now × (common_width ≤ length naming.now) }
    ensures { result ≡ live (table_in (table_of id) store.now) naming.now (number_of id) }
{
    number_of(id) < row_count(table_of(id), store) && is_active_for(naming, row(store, id))
}
