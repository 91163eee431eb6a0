//! Hashes of byte keys.
ghost use Rattle.std.specs.Prelude.{◌≡◌, ℕ, List, take};
ghost use Rattle.judy_bytes.specs.Orders.{digest_word};
ghost use Rattle.judy_model.specs.Walks.{key_word};
ghost use Rattle.judy_packing.specs.Packing.{pack};
ghost use Rattle.sha2.specs.Sha256.{sha256};

use judy_packing::pack;
use sha2::{Digest, Sha256};

/// A hash of byte keys: a function from keys to words.
pub trait KeyHash: Copy {
    // The word of a key.
    ghost hashed: { List ℕ → ℕ };

    /// The word of a key.
    fn word(&self, key: &[u8]) -> u64
        ensures { result ≡ hashed key.now };
}

/// A hash whose words are those by which the definition orders walks: the first 8 bytes of SHA-256, the first
/// byte highest.
pub trait OrderHash: KeyHash {
    /// Its words are those of the order.
    ghost ordered: { (key : List ℕ) → Self.hashed key ≡ key_word key };
}

/// SHA-256 (FIPS 180-4): the first 8 bytes of a key's digest, the first byte highest.
#[derive(Clone, Copy)]
pub struct Sha256Hash;

impl KeyHash for Sha256Hash {
    ghost hashed = { λ key. pack (take 8 (sha256 key)) };

    fn word(&self, key: &[u8]) -> u64 {
        let digest = Sha256::digest(key);
        pack(&digest[..8])
    }
}

impl OrderHash for Sha256Hash {
    ghost ordered = { digest_word };
}
