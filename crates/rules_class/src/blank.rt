// Bytes of sets that are zero: none of the eight numbers of such a byte is a member.
ghost use Rattle.std.specs.Prelude.{Bool, ◌≡◌, ℕ, ◌*◌, ◌^◌, ◌<◌, length};
ghost use Rattle.prelude.specs.Below.{any_below};
ghost use Rattle.rules_class.specs.Blank.{blank, ByBytes};

use prelude::number::byte_at;

// Whether a byte of two sets is zero in both.
#[tactic(auto, unfolding(crate::specs::Blank::blank))]
pub fn is_blank(a: &[u8], b: &[u8], at: usize) -> bool
    requires { (at < length a.now) × (at < length b.now) }
    ensures { result ≡ blank a.now b.now at }
{
    byte_at(a, at) == 0 && byte_at(b, at) == 0
}

// Whether one of the numbers of so many bytes passes. Most bytes are blank: none of the eight numbers of such a byte passes, and they are not tried.
pub fn any_by_bytes<B: Fn(usize) -> bool, P: Fn(usize) -> bool>(
    bytes: usize,
    is_blank: B,
    passes: P,
) -> bool
    requires few { bytes * 8 < 2 ^ 64 }
    requires byte { (at : ℕ) → at < bytes → B.pre is_blank at }
    requires number { (n : ℕ) → n < bytes * 8 → P.pre passes n }
    ensures { (p : ℕ → Bool) → ByBytes bytes (λ at b. B.post is_blank at b) (λ n b. P.post passes n b) p → result ≡ any_below (bytes * 8) p }
{
    for at in 0..bytes {
        if is_blank(at) {
            continue;
        }
        for i in 0..8 {
            if passes(at * 8 + i) {
                return true;
            }
        }
    }
    false
}
