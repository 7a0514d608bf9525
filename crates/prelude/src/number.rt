// Numbers of one, two and four bytes. Document 01: "numbers most significant byte first".
ghost use Rattle.std.specs.Prelude.{◌≡◌, ◌+◌, ◌≤◌, ◌<◌, length, get_or};
ghost use Rattle.prelude.specs.Part.{splice};
ghost use Rattle.prelude.specs.BigEndian.{big_endian, big_endian_bytes};

// The byte at a place. A byte that comes from a call is known to be below 256, so that casting it asks no proof.
pub fn byte_at(s: &[u8], at: usize) -> u8
    requires { at < length s.now }
    ensures { result ≡ get_or s.now at 0 }
{
    s[at]
}

// The number of two bytes.
// Two functions of a line each: the numbers share no trait that has from_be_bytes, and one of our own with laws would be longer.
pub fn read_u16(s: &[u8], at: usize) -> u16
    requires { at + 2 ≤ length s.now }
    ensures { result ≡ big_endian 2 at s.now }
{
    u16::from_be_bytes([s[at], s[at + 1]])
}

// The number of four bytes.
pub fn read_u32(s: &[u8], at: usize) -> u32
    requires { at + 4 ≤ length s.now }
    ensures { result ≡ big_endian 4 at s.now }
{
    u32::from_be_bytes([s[at], s[at + 1], s[at + 2], s[at + 3]])
}

// Writes a number as two bytes.
pub fn write_u16(d: &mut [u8], at: usize, x: u16)
    requires { at + 2 ≤ length d.old }
    ensures { d.new ≡ splice at (big_endian_bytes 2 x) d.old }
{
    d[at..at + 2].copy_from_slice(&x.to_be_bytes());
}
