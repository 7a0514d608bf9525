// FNV-1a with 64 bits, by which every byte of a store is compared.
ghost use Rattle.std.specs.Prelude.{◌≡◌};
ghost use Rattle.replay.specs.Hash.{mixed, fnv1a as hashed};

const PRIME: u64 = 1099511628211;

const BASIS: u64 = 14695981039346656037;

// The hash with one more byte.
fn mix(hash: u64, byte: u8) -> u64
    ensures { result ≡ mixed hash byte }
{
    (hash ^ byte as u64).wrapping_mul(PRIME)
}

// The hash of all bytes.
pub fn fnv1a(s: &[u8]) -> u64
    ensures { result ≡ hashed s.now }
{
    s.iter().fold(BASIS, |hash, byte| mix(hash, *byte))
}
