ghost use Rattle.std.specs.Prelude.{◌≡◌};
ghost use Rattle.sha2.specs.Sha256.{sha256};

use sha2::{Digest, Sha256};
use std::marker::Model;

/// A key of HMAC-SHA-256: 32 bytes. Contracts see it as these bytes. It can't be printed.
#[derive(Drop)]
pub struct Key {
    bytes: [u8; 32],
}

impl Model for Key {
    ghost use Rattle.std.specs.Prelude.{ℕ, List};

    ghost Value = { List ℕ };

    ghost view = { λ k. k.bytes };
}

impl Key {
    /// The key of these bytes.
    pub fn new(bytes: [u8; 32]) -> Key
        ensures { result ≡ bytes }
    {
        Key { bytes }
    }

    /// The key of a secret: its SHA-256 digest.
    pub fn of_secret(secret: &[u8]) -> Key
        ensures { result ≡ sha256 secret.now }
    {
        Key {
            bytes: Sha256::digest(secret),
        }
    }

    /// The bytes of this key.
    pub fn as_bytes(&self) -> &[u8; 32]
        ensures { result.now ≡ self.now }
    {
        &self.bytes
    }
}
