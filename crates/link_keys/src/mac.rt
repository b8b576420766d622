//! HMAC-SHA-256 of a message that is added in pieces.
ghost use Rattle.std.specs.Prelude.{◌≡◌, ◌++◌, [], ℕ, List};
ghost use Rattle.link_keys.specs.Macs.{HoldsMessage, mac_of, masked};

use crate::Key;
use sha2::{Digest, Sha256};

// The mask of the inner hash (RFC 2104's ipad).
const INNER: u8 = 0x36;

// The mask of the outer hash (RFC 2104's opad).
const OUTER: u8 = 0x5c;

// Each byte of a key, XORed with a mask.
fn masked_key(key: &[u8; 32], mask: u8) -> [u8; 32]
    ensures { result ≡ masked key.now mask }
{
    let mut bytes = [0u8; 32];
    'bytes: for i in 0..32 {
        bytes[i] = key[i] ^ mask;
    }
    bytes
}

/// A message that is added in pieces, under a key. `HoldsMessage` says which message it holds.
#[derive(Drop)]
pub struct Mac {
    key: [u8; 32],
    inner: Sha256,
}

impl Mac {
    /// The empty message, under this key.
    pub fn new(key: &Key) -> Mac
        ensures { HoldsMessage key.now [] result }
    {
        let bytes = *key.as_bytes();
        let mut inner = Sha256::new();
        inner.update(masked_key(&bytes, INNER));
        inner.update([INNER; 32]);
        Mac { key: bytes, inner }
    }

    /// Adds a piece at the end of the message.
    pub fn add(&mut self, piece: &[u8])
        ensures { (key message : List ℕ) → HoldsMessage key message self.old
            → HoldsMessage key (message ++ piece.now) self.new }
    {
        self.inner.update(piece);
    }

    /// The code of the message: HMAC-SHA-256 under its key.
    pub fn finish(self) -> [u8; 32]
        ensures { (key message : List ℕ) → HoldsMessage key message self
            → result ≡ mac_of key message }
    {
        let Mac { key, inner } = self;
        let inside: [u8; 32] = inner.finalize();
        let mut outer = Sha256::new();
        outer.update(masked_key(&key, OUTER));
        outer.update([OUTER; 32]);
        outer.update(inside);
        outer.finalize()
    }
}
