// Sets of small numbers as byte strings: n is a member where bit n % 8, the least significant first, of byte n / 8 is set. A set has the length
// of the slice that holds it: 16 bytes for classes, 32 for attributes.
// They are plain bytes, no set type: they are parts of rows of the stores, whose layout document 01 gives and C lends.
#![tactic(auto)]

ghost use Rattle.std.specs.Prelude.{◌≡◌, ◌*◌, ◌≤◌, length};
ghost use Rattle.prelude.specs.Below.{first_below};
ghost use Rattle.sets.specs.Sets.{member, with_member, without_member, union, subset, is_empty, member_count, from};

use prelude::part::is_zero;

// Whether n is a member of s.
pub fn has(s: &[u8], n: usize) -> bool
    ensures { result ≡ member s.now n }
{
    n / 8 < s.len() && s[n / 8] >> (n % 8) & 1 == 1
}

// Makes n a member of s; a number that s has no room for is left out.
// insert and remove stay two: one of both would take the operator as a closure, for a line of code each, and two contracts in one.
pub fn insert(s: &mut [u8], n: usize)
    ensures { s.new ≡ with_member n s.old }
{
    if n / 8 < s.len() {
        s[n / 8] |= 1 << (n % 8);
    }
}

// Takes n out of s.
pub fn remove(s: &mut [u8], n: usize)
    ensures { s.new ≡ without_member n s.old }
{
    if n / 8 < s.len() {
        s[n / 8] &= !(1 << (n % 8));
    }
}

// Adds the members of b to a.
pub fn join(a: &mut [u8], b: &[u8])
    requires { length b.now ≡ length a.old }
    ensures { a.new ≡ union a.old b.now }
{
    // By number: after an adapter of iter_mut the library says nothing of the bytes.
    for (i, x) in b.iter().enumerate() {
        a[i] |= *x;
    }
}

// Whether every member of a is one of b.
pub fn is_subset(a: &[u8], b: &[u8]) -> bool
    requires { length a.now ≤ length b.now }
    ensures { result ≡ subset a.now b.now }
{
    a.iter().zip(b).all(|(x, y)| *x | *y == *y)
}

// Whether s has no member.
pub fn is_empty(s: &[u8]) -> bool
    ensures { result ≡ is_empty s.now }
{
    is_zero(s)
}

// How many members s has. Document 01: "the number of attributes in the kept mandatory set". Members are numbers of at most 16 bits.
pub fn count(s: &[u8]) -> usize
    requires { length s.now ≤ 8192 }
    ensures { result ≡ member_count s.now }
{
    s.iter().map(|b| b.count_ones() as usize).sum()
}

// The first member of s from start on, or 8 times the length where there is none: what a listing in rising order goes by.
pub fn next(s: &[u8], start: usize) -> usize
    requires { length s.now ≤ 8192 }
    ensures { result ≡ first_below (length s.now * 8) (from start (member s.now)) }
{
    let end = s.len() * 8;
    (start..end).find(|n| has(s, *n)).unwrap_or(end)
}
