//! Bytes that are held until they are taken from the front, as those of a stream that arrives in
//! pieces.
#![tactic(auto)]

ghost use Rattle.std.specs.Prelude.{◌≡◌, ◌≤◌, [], ◌++◌, drop, length, vec_len, OnErr, OnOk};

pub use std::alloc::AllocError as Memory;
use std::alloc::Global;
use std::marker::Model;

/// Bytes in order: pieces are appended, and used bytes are taken from the front. Each byte is moved a
/// bounded number of times, whatever the pieces are.
#[derive(Drop)]
pub struct HeldBytes {
    bytes: Vec<u8>,
    // The number of them that are taken.
    taken: usize,
}

impl Model for HeldBytes {
    ghost use Rattle.std.specs.Prelude.{ℕ, List, ◌≤◌, drop, vec_len};

    ghost Value = { List ℕ };

    ghost view = { λ h. drop h.taken h.bytes.items };

    ghost invariant = { λ h. h.taken ≤ vec_len h.bytes };
}

// Drops the first `count` bytes.
fn drop_front(bytes: &mut Vec<u8>, count: usize)
    requires { count ≤ vec_len bytes.old }
    ensures { bytes.new.items ≡ drop count bytes.old.items }
{
    let kept = bytes.len() - count;
    bytes.copy_within(count.., 0);
    bytes.truncate(kept);
}

impl HeldBytes {
    /// No bytes are held. Takes no memory.
    pub fn new(alloc: Global) -> HeldBytes
        ensures { result ≡ [] }
    {
        HeldBytes {
            bytes: Vec::new(alloc),
            taken: 0,
        }
    }

    /// The bytes that are held, in order.
    pub fn as_slice(&self) -> &[u8]
        ensures { result.now ≡ self.now }
    {
        &self.bytes[self.taken..]
    }

    /// Appends a piece. Fails only when out of memory, and then changes nothing.
    pub fn append(&mut self, piece: &[u8]) -> Result<(), Memory>
        ensures ok { OnOk result (self.new ≡ self.old ++ piece.now) }
        ensures err { OnErr result (self.new ≡ self.old) }
    {
        // Where at least half of what is kept is taken, that is dropped.
        if self.taken >= self.bytes.len() - self.taken {
            drop_front(&mut self.bytes, self.taken);
            self.taken = 0;
        }
        self.bytes.extend_from_slice(piece)
    }

    /// Takes the first `count` bytes.
    pub fn take_front(&mut self, count: usize)
        requires { count ≤ length self.old }
        ensures { self.new ≡ drop count self.old }
    {
        self.taken += count;
    }

    /// Takes all bytes, so that none are held.
    pub fn clear(&mut self)
        ensures { self.new ≡ [] }
    {
        self.bytes.clear();
        self.taken = 0;
    }
}
