ghost use Rattle.std.specs.Prelude.{◌≡◌};
ghost use Rattle.site_peers.specs.Queues.{content_digest};

use dots::SharedBytes;
use sha2::{Digest, Sha256};
use std::marker::Model;

// How many bytes of a frame stand before what it says: its length, letters, version, maker and number.
const HEADING: usize = 16;

// The SHA-256 digest of what a frame says, whoever made it and under whichever number.
fn digest_of(frame: &[u8]) -> [u8; 32]
    ensures { result ≡ content_digest frame.now }
{
    let start = HEADING.min(frame.len());
    Sha256::digest(&frame[start..])
}

/// The bytes of a whole, and the SHA-256 digest of what it says, by which a queue knows whether it says the same as the last one. The
/// digest is computed once, for all queues that are given the whole (this project's own).
#[derive(Drop)]
pub struct WholeFrame<'a> {
    bytes: &'a SharedBytes,
    digest: [u8; 32],
}

impl<'a> Model for WholeFrame<'a> {
    ghost use Rattle.std.specs.Prelude.{◌≡◌, ℕ, List};
    ghost use Rattle.site_peers.specs.Queues.{content_digest};

    ghost Value = { List ℕ };

    ghost view = { λ w. w.bytes.now };

    ghost invariant = { λ w. w.digest ≡ content_digest w.bytes.now };
}

impl<'a> WholeFrame<'a> {
    /// The whole that has these bytes. It takes no memory.
    pub fn new(bytes: &'a SharedBytes) -> WholeFrame<'a>
        ensures { result ≡ bytes.now }
    {
        WholeFrame {
            bytes,
            digest: digest_of(bytes.as_slice()),
        }
    }

    /// Its bytes.
    pub fn bytes(&self) -> &SharedBytes
        ensures { result.now ≡ self.now }
    {
        self.bytes
    }

    /// The SHA-256 digest of its bytes after the heading of a frame.
    pub fn digest(&self) -> [u8; 32]
        ensures { result ≡ content_digest self.now }
    {
        self.digest
    }
}
