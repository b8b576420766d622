//! Bytes that were read from a stream whose items are followed by their tags.
ghost use Rattle.std.specs.Prelude.{◌≡◌, ◌⊎◌, ◌↔◌, ◌++◌, ◌+◌, ◌-◌, ◌^◌, ◌<◌, ◌≤◌, [], IfErr, IfOk, IsErrOf};
ghost use Rattle.std.specs.Prelude.{IsTrue, OnErr, OnOk, Ok, false, length, take, true};
ghost use Rattle.std.specs.Io.KnownBytes.{Keeps};
ghost use Rattle.link_stream.specs.Receiving.{GivesAt, HasRead};
ghost use Rattle.link_stream.specs.Tagged.{HasTag, IsTagFault, TakesTagged};

use crate::ReceiveFault;
use ami_text::Source;
use dots::SharedBytes;
use held_bytes::HeldBytes;
use link_keys::{Key, TAG_BYTES, same_bytes, tag};
use std::alloc::{AllocError, Global};
use std::marker::Model;

// How many bytes are read at a time.
const PIECE: usize = 16_384;

// Whether the first `size` bytes are followed by their tag.
fn has_tag(key: &Key, counter: u64, bytes: &[u8], size: usize) -> bool
    requires { size + TAG_BYTES ≤ length bytes.now }
    ensures { IsTrue result ↔ HasTag key.now counter size bytes.now }
{
    let (item, rest) = bytes.split_at(size);
    same_bytes(&rest[..TAG_BYTES], &tag(key, counter, item))
}

// A copy of bytes, which its owners share. Fails only when out of memory.
fn shared_copy(alloc: Global, bytes: &[u8]) -> Result<SharedBytes, AllocError>
    ensures { IfOk result (λ copy. copy ≡ bytes.now) }
{
    SharedBytes::new(alloc, Vec::from_slice(alloc, bytes)?)
}

// What was read of a stream and not yet taken, the key of its direction, and how many items were taken, which is the next one's counter.
#[derive(Drop)]
pub(crate) struct TaggedBytes {
    alloc: Global,
    key: Key,
    taken: u64,
    held: HeldBytes,
}

impl Model for TaggedBytes {
    ghost use Rattle.link_stream.specs.Tagged.{TaggedState};

    ghost Value = { TaggedState };

    ghost view = { λ t. record { key = t.key; taken = t.taken; held = t.held } };
}

impl TaggedBytes {
    // Nothing was read yet. Takes no memory.
    pub fn new(alloc: Global, key: Key) -> TaggedBytes
        ensures { result ≡ record { key = key; taken = 0; held = [] } }
    {
        TaggedBytes {
            alloc,
            key,
            taken: 0,
            held: HeldBytes::new(alloc),
        }
    }

    // What is held.
    pub fn held(&self) -> &[u8]
        ensures { result.now ≡ self.now.held }
    {
        self.held.as_slice()
    }

    // Adds a piece at the end of what is held. It fails only when out of memory, and then nothing is changed.
    pub fn feed(&mut self, piece: &[u8]) -> Result<(), AllocError>
        ensures ok { OnOk result
            (self.new ≡ record self.old { held = self.old.held ++ piece.now }) }
        ensures err { OnErr result (self.new ≡ self.old) }
    {
        self.held.append(piece)
    }

    // Whether the first `size` bytes may be taken: they have their tag, and a counter is left. Errors, in order: 1 `WrongTag`; 2
    // `Exhausted`.
    fn check(&self, size: usize) -> Result<(), ReceiveFault>
        requires { size + TAG_BYTES ≤ length self.now.held }
        ensures right { OnOk result (HasTag self.now.key self.now.taken size self.now.held) }
        ensures counter { OnOk result (self.now.taken < 2 ^ 64 - 1) }
        ensures fault { IfErr result (λ fault. IsTagFault fault self.now size) }
        ensures memory { IsErrOf result ReceiveFault.Memory → ⊥ }
    {
        if !has_tag(&self.key, self.taken, self.held.as_slice(), size) {
            return Err(ReceiveFault::WrongTag);
        }
        if self.taken == u64::MAX {
            return Err(ReceiveFault::Exhausted);
        }
        Ok(())
    }

    // Drops the first `size` bytes, whose tag is right, and the tag, and counts them.
    fn drop_front(&mut self, size: usize)
        requires bytes { size + TAG_BYTES ≤ length self.old.held }
        requires right { HasTag self.old.key self.old.taken size self.old.held }
        requires counter { self.old.taken < 2 ^ 64 - 1 }
        ensures { TakesTagged self.old (take size self.old.held) self.new }
    {
        self.held.take_front(size);
        self.held.take_front(TAG_BYTES);
        self.taken += 1;
    }

    // Takes the first `size` bytes and their tag from the front of what is held, and returns no copy of them. A fault changes nothing.
    // Errors, in order: 1 `WrongTag`; 2 `Exhausted`, if no counter is left.
    pub fn pass(&mut self, size: usize) -> Result<(), ReceiveFault>
        requires { size + TAG_BYTES ≤ length self.old.held }
        ensures passed { OnOk result
            (TakesTagged self.old (take size self.old.held) self.new) }
        ensures err { OnErr result (self.new ≡ self.old) }
        ensures fault { IfErr result (λ fault. IsTagFault fault self.old size) }
        ensures memory { IsErrOf result ReceiveFault.Memory → ⊥ }
    {
        self.check(size)?;
        self.drop_front(size);
        Ok(())
    }

    // Takes the first `size` bytes and their tag from the front of what is held, and returns these bytes. A fault changes nothing.
    // Errors, in order: 1 `WrongTag`; 2 `Exhausted`, if no counter is left; 3 `Memory`.
    pub fn take(&mut self, size: usize) -> Result<SharedBytes, ReceiveFault>
        requires { size + TAG_BYTES ≤ length self.old.held }
        ensures taken { IfOk result (λ bytes. TakesTagged self.old bytes self.new
            × (bytes ≡ take size self.old.held)) }
        ensures err { OnErr result (self.new ≡ self.old) }
        ensures fault { IfErr result (λ fault. IsTagFault fault self.old size) }
    {
        self.check(size)?;
        let (item, _) = self.held.as_slice().split_at(size);
        let Ok(bytes) = shared_copy(self.alloc, item) else {
            return Err(ReceiveFault::Memory);
        };
        self.drop_front(size);
        Ok(bytes)
    }

    // Reads once, at most 16,384 bytes, and holds what came. False exactly at the end of the stream. A fault leaves what is held
    // as it is. Errors, in order: 1 `Failed`, if the source failed; 2 `Memory`, and what came is lost.
    pub fn read_piece<S: Source>(&mut self, source: &mut S) -> Result<bool, ReceiveFault>
        requires { S.failed source.old ≡ false }
        ensures read { OnOk result
            (HasRead (S.left source.old) (S.left source.new) self.old self.new) }
        ensures works { OnOk result (S.failed source.new ≡ false) }
        ensures more { result ≡ Ok true → length self.old.held < length self.new.held }
        ensures end { result ≡ Ok false
            → (self.new ≡ self.old) × (S.ended source.new ≡ true) }
        ensures all { result ≡ Ok false → Keeps (S.left source.old) (S.left source.new) }
        ensures most { OnOk result (length self.new.held ≤ length self.old.held + PIECE) }
        ensures fails { IfErr result (λ fault.
            ((fault ≡ ReceiveFault.Failed) × (S.failed source.new ≡ true))
            ⊎ ((fault ≡ ReceiveFault.Memory) × (S.failed source.new ≡ false))) }
        ensures err { OnErr result (self.new ≡ self.old) }
        ensures given { IfErr result (λ fault.
            GivesAt fault (S.left source.old) (S.left source.new)) }
    {
        let mut piece = [0u8; PIECE];
        let Ok(count) = source.read(&mut piece) else {
            return Err(ReceiveFault::Failed);
        };
        if count == 0 {
            return Ok(false);
        }
        match self.feed(&piece[..count]) {
            Ok(()) => Ok(true),
            Err(_) => Err(ReceiveFault::Memory),
        }
    }
}
