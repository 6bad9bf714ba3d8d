//! Hashers of texts.

ghost use Rattle.std.specs.Prelude.{◌≡◌, ◌*◌, ◌≤◌, ℕ, List, length, take};
ghost use Rattle.sj_text_core.specs.Hash.{hash};

/// What a text hashes to: a function of the hasher and the text.
pub trait KeyHasher {
    /// The hash of a text.
    ghost hash_of: { Self → List ℕ → ℕ };

    /// The hash of the text.
    fn hash_text(&self, text: &str) -> u64
        ensures { result ≡ hash_of self.now text.now };
}

/// The fixed hash: it starts at 0, and at each byte it is multiplied by 31 and the byte is added,
/// modulo 2^64.
#[derive(Clone, Copy, Debug, Default)]
pub struct NotSoRandomState;

/// The hasher of every object of a document.
pub type ObjectHasher = NotSoRandomState;

impl KeyHasher for NotSoRandomState {
    ghost hash_of = { λ _. hash };

    fn hash_text(&self, text: &str) -> u64 {
        let bytes = text.as_bytes();
        let fours = bytes.len() / 4;
        let mut hash = hash_of_fours(bytes, fours);
        let rest = &bytes[4 * fours..];
        for byte in rest {
            hash = hash.wrapping_mul(31).wrapping_add(u64::from(*byte));
        }
        hash
    }
}

/// The hash of the first so many times four bytes. The products of four bytes don't wait for one
/// another.
#[inline]
fn hash_of_fours(bytes: &[u8], fours: usize) -> u64
    requires { 4 * fours ≤ length bytes.now }
    ensures { result ≡ hash (take (4 * fours) bytes.now) }
{
    let mut hash = 0u64;
    for i in 0..fours {
        let at = 4 * i;
        let [a, b, c, d] = [bytes[at], bytes[at + 1], bytes[at + 2], bytes[at + 3]];
        let four = u64::from(a) * 29791 + u64::from(b) * 961 + u64::from(c) * 31 + u64::from(d);
        hash = hash.wrapping_mul(923521).wrapping_add(four);
    }
    hash
}
