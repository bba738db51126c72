//! Hash functions for keys and points.
ghost use Rattle.std.specs.Prelude.{◌≡◌, ℕ, List, ◌%◌, ◌^◌, sum};
ghost use Rattle.hash_ring.specs.Points.{hash_number};

use sha2::{Digest, Sha256};

/// A hash function from bytes to 64-bit numbers. The result depends on the value and the bytes alone. Every such
/// function gives a correct ring, also one that hashes points of different servers to the same number.
pub trait PointHash: Copy {
    /// The result of `hash`, as a function of the value and the bytes.
    ghost hash_of: { Self → List ℕ → ℕ };

    /// Hashes bytes.
    fn hash(&self, bytes: &[u8]) -> u64
        ensures { result ≡ hash_of self.now bytes.now };
}

/// SHA-256 (FIPS 180-4), cut to its first eight bytes, read big-endian. ringpop-go hashes by FarmHash, so its rings differ.
#[derive(Clone, Copy, Debug, PartialEq, Eq)]
pub struct Sha256Hash;

impl PointHash for Sha256Hash {
    ghost hash_of = { λ _. hash_number };

    fn hash(&self, bytes: &[u8]) -> u64 {
        let [a, b, c, d, e, f, g, h, ..] = Sha256::digest(bytes);
        u64::from_be_bytes([a, b, c, d, e, f, g, h])
    }
}

/// The sum of the bytes modulo 2^64, for tests and scripts.
#[derive(Clone, Copy, Debug, PartialEq, Eq)]
pub struct SumHash;

impl PointHash for SumHash {
    ghost hash_of = { λ _ bytes. sum bytes % 2 ^ 64 };

    fn hash(&self, bytes: &[u8]) -> u64 {
        let mut total: u64 = 0;
        for byte in bytes {
            total = total.wrapping_add(u64::from(*byte));
        }
        total
    }
}
