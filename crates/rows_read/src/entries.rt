// Set entries: numbers of two bytes each, strictly rising.
ghost use Rattle.std.specs.Prelude.{true, ◌≡◌, ◌*◌, ◌%◌, length};
ghost use Rattle.schema.specs.Numbers.{limit};
ghost use Rattle.sets.specs.Sets.{set_of};
ghost use Rattle.prelude.specs.Unlike.{among};
ghost use Rattle.rows_format.specs.Entries.{entries, rises_below};

use prelude::number::read_u16;
use prelude::part::clear;
use schema::number::{TableId, is_number};
use sets::insert;

// Whether whole entries rise strictly and are numbers that rows of a table can have.
pub fn rises(v: &[u8], table: TableId) -> bool
    requires { length v.now % 2 ≡ 0 }
    ensures { result ≡ rises_below (limit table) 0 (entries v.now) }
{
    let mut low = 0;
    // By number, not by chunks of two: no law ties the bytes of a chunk to the entries.
    for k in 0..v.len() / 2 {
        let n = read_u16(v, 2 * k) as usize;
        if n < low || !is_number(table, n) {
            return false;
        }
        low = n + 1;
    }
    true
}

// The cell becomes the set of the entries.
pub fn store_entries(v: &[u8], cell: &mut [u8])
    requires { (length v.now % 2 ≡ 0) × (rises_below (length cell.old * 8) 0 (entries v.now) ≡ true) }
    ensures { cell.new ≡ set_of (length cell.old) (among (entries v.now)) }
{
    clear(cell);
    // By number, as in rises.
    for k in 0..v.len() / 2 {
        insert(cell, read_u16(v, 2 * k) as usize);
    }
}
