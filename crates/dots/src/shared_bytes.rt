ghost use Rattle.std.specs.Prelude.{◌≡◌, ◌↔◌, IsTrue, IfOk};

use crate::Memory;
use std::alloc::Global;
use std::marker::Model;
use std::sync::Arc;

/// Bytes with several owners, such as a report that is in a journal and is written to a client, or a
/// frame that is in a journal and on several links. A copy adds an owner, and copies no byte.
#[derive(Drop)]
pub struct SharedBytes {
    shared: Arc<Vec<u8>>,
}

impl Model for SharedBytes {
    ghost use Rattle.std.specs.Arc.{arc_value};
    ghost use Rattle.std.specs.Prelude.{ℕ, List};

    ghost Value = { List ℕ };

    ghost view = { λ b. (arc_value b.shared).items };
}

impl SharedBytes {
    /// Shares the bytes of a vector without copying them. Fails only when out of memory.
    pub fn new(alloc: Global, bytes: Vec<u8>) -> Result<SharedBytes, Memory>
        ensures { IfOk result (λ made. made ≡ bytes.items) }
    {
        match Arc::new(alloc, bytes) {
            Ok(shared) => Ok(SharedBytes { shared }),
            Err(_) => Err(Memory),
        }
    }

    /// The bytes.
    pub fn as_slice(&self) -> &[u8]
        ensures { result.now ≡ self.now }
    {
        self.shared.as_slice()
    }

    /// The allocator that holds the bytes. No contract says which it is.
    pub fn allocator(&self) -> Global {
        *self.shared.allocator()
    }

    /// Returns one more owner of the same bytes. Takes no memory. Fails only with `Memory`, if they have 2^63 - 1 owners.
    pub fn copy(&self) -> Result<SharedBytes, Memory>
        ensures { IfOk result (λ copy. copy ≡ self.now) }
    {
        let shared = Arc::try_clone(&self.shared)?;
        Ok(SharedBytes { shared })
    }

    /// Drops this owner, even on a failure, and returns the bytes: the vector itself if it was the only owner, otherwise a copy.
    /// Fails only when out of memory for that copy.
    pub fn into_vec(self, alloc: Global) -> Result<Vec<u8>, Memory>
        ensures { IfOk result (λ bytes. bytes.items ≡ self) }
    {
        let SharedBytes { shared } = self;
        match Arc::try_unwrap(shared) {
            Ok(bytes) => Ok(bytes),
            Err(shared) => Vec::from_slice(alloc, shared.as_slice()),
        }
    }

    /// Whether both are the same bytes.
    pub fn same(&self, other: &SharedBytes) -> bool
        ensures { IsTrue result ↔ (self.now ≡ other.now) }
    {
        self.as_slice() == other.as_slice()
    }
}
