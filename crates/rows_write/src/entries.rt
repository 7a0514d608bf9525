// The members of a set written as entries of two bytes.
ghost use Rattle.std.specs.Prelude.{cond, [], ◌∷◌, ◌≡◌, ◌+◌, ◌≤◌, ◌<◌, length};
ghost use Rattle.prelude.specs.Part.{splice};
ghost use Rattle.sets.specs.Sets.{member, members_from};
ghost use Rattle.rows_format.specs.Entries.{entry_bytes};

use prelude::number::write_u16;
use sets::has;

// Writes n at a place, if it is a member, and gives the place after it.
fn write_entry(cell: &[u8], n: usize, out: &mut [u8], at: usize) -> usize
    requires { (n < 65536) × (at + length (entry_bytes (cond (member cell.now n) (n ∷ []) [])) ≤ length out.old) }
    ensures { (result ≡ at + length (entry_bytes (cond (member cell.now n) (n ∷ []) [])))
        × (out.new ≡ splice at (entry_bytes (cond (member cell.now n) (n ∷ []) [])) out.old) }
{
    if !has(cell, n) {
        return at;
    }
    write_u16(out, at, n as u16);
    at + 2
}

// Writes the members of a set at a place.
pub fn write_entries(cell: &[u8], out: &mut [u8], at: usize)
    requires { (length cell.now ≤ 254) × (at + length (entry_bytes (members_from 0 cell.now)) ≤ length out.old) }
    ensures { out.new ≡ splice at (entry_bytes (members_from 0 cell.now)) out.old }
{
    let end = cell.len() * 8;
    let mut to = at;
    for n in 0..end {
        to = write_entry(cell, n, out, to);
    }
}
