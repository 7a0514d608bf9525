// One value: whether an encoding accepts it, and storing it in its cell.
ghost use Rattle.std.specs.Prelude.{true, ◌||◌, ◌∷◌, ◌≡◌, ◌+◌, ◌-◌, ◌≤◌, eqb, length, get_or};
ghost use Rattle.prelude.specs.Part.{padded};
ghost use Rattle.rows_format.specs.Encodings.{passes, accepts, image, room, sound};

use crate::entries::{rises, store_entries};
use prelude::number::read_u16;
use prelude::part::{copy_padded, is_zero};
use rows_format::column::{Encoding, Test};
use schema::number::is_number;

// The first byte, and 0 where there is none.
pub fn first_byte(v: &[u8]) -> u8
    ensures { result ≡ get_or v.now 0 0 }
{
    v.first().copied().unwrap_or(0)
}

// Whether a byte is the tag of an open list.
fn is_open_list(b: u8) -> bool
    ensures { result ≡ (eqb b 21 || (eqb b 23 || eqb b 25)) }
{
    matches!(b, 0x15 | 0x17 | 0x19)
}

// Whether bytes pass what is asked of them.
#[tactic(auto, unfolding(rows_format::specs::Encodings::passes))]
pub fn passes(test: Test, v: &[u8]) -> bool
    ensures { result ≡ passes test v.now }
{
    match test {
        Test::Any => true,
        Test::Below { limit } => (first_byte(v) as usize) < limit,
        Test::NotZero => !is_zero(v),
        Test::OpenList => is_open_list(first_byte(v)),
    }
}

// Whether a field of the encoding may have the value v.
#[tactic(auto, unfolding(rows_format::specs::Encodings::accepts))]
pub fn accepts(encoding: Encoding, v: &[u8]) -> bool
    ensures { result ≡ accepts encoding v.now }
{
    let n = v.len();
    match encoding {
        Encoding::Plain { len, test } => n == len && passes(test, v),
        Encoding::Number { table } => n == 2 && is_number(table, read_u16(v, 0) as usize),
        Encoding::Counted { least, most } => least <= n && n <= most,
        Encoding::Arcs { most } => n % 4 == 0 && n / 4 <= most,
        Encoding::Entries { table } => n != 0 && n % 2 == 0 && rises(v, table),
    }
}

// The cell becomes a count, the value behind it, and zeros.
fn store_counted(n: u8, v: &[u8], cell: &mut [u8])
    requires { length v.now + 1 ≤ length cell.old }
    ensures { cell.new ≡ n ∷ padded (length cell.old - 1) v.now }
{
    cell[0] = n;
    copy_padded(&mut cell[1..], v);
}

// The cell becomes what the value is stored as.
pub fn store_value(encoding: Encoding, v: &[u8], cell: &mut [u8])
    requires { (sound encoding ≡ true) × (accepts encoding v.now ≡ true) × (length cell.old ≡ room encoding) }
    ensures { cell.new ≡ image encoding v.now }
{
    match encoding {
        Encoding::Plain { .. } => cell.copy_from_slice(v),
        Encoding::Number { .. } => cell[0] = read_u16(v, 0) as u8,
        Encoding::Counted { .. } => store_counted(v.len() as u8, v, cell),
        Encoding::Arcs { .. } => store_counted((v.len() / 4) as u8, v, cell),
        Encoding::Entries { .. } => store_entries(v, cell),
    }
}
