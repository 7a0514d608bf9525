// One value: its length, and writing it.
ghost use Rattle.std.specs.Prelude.{true, ◌≡◌, ◌+◌, ◌≤◌, length};
ghost use Rattle.prelude.specs.Part.{splice};
ghost use Rattle.rows_format.specs.Encodings.{stored, room, holds, sound};

use crate::entries::write_entries;
use prelude::number::write_u16;
use prelude::part::{part_of, put_bytes};
use rows_format::column::Encoding;
use rows_read::value::first_byte;
use sets::count;

// How long the value is that a cell stands for.
// Encoding and cell stand apart: a type of both would be built by two callers and taken apart again in both functions here.
pub fn value_length(encoding: Encoding, cell: &[u8]) -> usize
    requires { (sound encoding ≡ true) × (length cell.now ≡ room encoding) × (holds encoding cell.now ≡ true) }
    ensures { result ≡ length (stored encoding cell.now) }
{
    match encoding {
        Encoding::Plain { .. } => cell.len(),
        Encoding::Number { .. } => 2,
        Encoding::Counted { .. } => first_byte(cell) as usize,
        Encoding::Arcs { .. } => (first_byte(cell) as usize) * 4,
        Encoding::Entries { .. } => count(cell) * 2,
    }
}

// Writes the value that a cell stands for.
pub fn write_value(encoding: Encoding, cell: &[u8], out: &mut [u8], at: usize)
    requires { (sound encoding ≡ true) × (length cell.now ≡ room encoding) × (holds encoding cell.now ≡ true)
        × (at + length (stored encoding cell.now) ≤ length out.old) }
    ensures { out.new ≡ splice at (stored encoding cell.now) out.old }
{
    match encoding {
        Encoding::Plain { .. } => {
            put_bytes(cell, out, at);
        }
        Encoding::Number { .. } => write_u16(out, at, first_byte(cell) as u16),
        Encoding::Counted { .. } => {
            let n = first_byte(cell) as usize;
            put_bytes(part_of(cell, 1, n), out, at);
        }
        Encoding::Arcs { .. } => {
            let n = (first_byte(cell) as usize) * 4;
            put_bytes(part_of(cell, 1, n), out, at);
        }
        Encoding::Entries { .. } => write_entries(cell, out, at),
    }
}
