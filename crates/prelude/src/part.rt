// Parts of a byte string: a part, a row of a store, a copy with zero padding, a part filled with zeros, a comparison.
ghost use Rattle.std.specs.Prelude.{◌≡◌, ◌+◌, ◌*◌, ◌≤◌, length};
ghost use Rattle.prelude.specs.Part.{part, row_at, zeros, padded, same_bytes, is_zero};
ghost use Rattle.prelude.specs.Written.{WrittenAt};

// The n bytes of s from at: a part of it, no copy.
pub fn part_of(s: &[u8], at: usize, n: usize) -> &[u8]
    requires { at + n ≤ length s.now }
    ensures { result.now ≡ part at n s.now }
{
    let e = at + n;
    &s[at..e]
}

// Row k of a table whose rows are width bytes wide, the first at base.
pub fn row_of(s: &[u8], base: usize, width: usize, k: usize) -> &[u8]
    requires { base + width * k + width ≤ length s.now }
    ensures { result.now ≡ row_at base width s.now k }
{
    part_of(s, base + width * k, width)
}

// d becomes s, zero padded to its own length.
pub fn copy_padded(d: &mut [u8], s: &[u8])
    requires { length s.now ≤ length d.old }
    ensures { d.new ≡ padded (length d.old) s.now }
{
    let n = s.len();
    d[..n].copy_from_slice(s);
    clear(&mut d[n..]);
}

// Every byte of d becomes zero.
pub fn clear(d: &mut [u8])
    ensures { d.new ≡ zeros (length d.old) }
{
    d.fill(0);
}

// Whether a and b are the same bytes. The lengths come first, then the last bytes: identifiers begin alike and differ at their end.
pub fn same(a: &[u8], b: &[u8]) -> bool
    ensures { result ≡ same_bytes a.now b.now }
{
    a.len() == b.len() && a.iter().rev().zip(b.iter().rev()).all(|(x, y)| x == y)
}

// Whether every byte of s is zero. The first byte tells most cells that have a value; all others are gathered and tested once, since a loop without a
// way out is one that the compiler can do many bytes at a time.
pub fn is_zero(s: &[u8]) -> bool
    ensures { result ≡ is_zero s.now }
{
    // No first().is_some_and(..): its proof took a lemma of four cases for the option and the closure's answer, and didn't close (tried); this one is a line.
    if !s.is_empty() && s[0] != 0 {
        return false;
    }
    s.iter().fold(0, |all, b| all | *b) == 0
}

// Copies bytes to a place, and gives the place after them.
// Output and place stand apart, no writer that holds both: contracts speak of the slice that C lends.
pub fn put_bytes(v: &[u8], out: &mut [u8], at: usize) -> usize
    requires { at + length v.now ≤ length out.old }
    ensures { WrittenAt v.now at result out.old out.new }
{
    let end = at + v.len();
    out[at..end].copy_from_slice(v);
    end
}
