ghost use Rattle.std.specs.Prelude.{◌≡◌, ◌++◌, [], IfOk, IfSome, OnErr, OnOk};
ghost use Rattle.delta_codec.specs.Decoding.{IsNextFault, IsNextFrame};

use crate::{DecodeFault, Frame, Memory, decode};
use held_bytes::HeldBytes;
use std::alloc::Global;
use std::marker::Model;

/// Cuts a stream of bytes, which arrives in pieces of any size, into frames. It holds the bytes that belong to no frame yet. Each
/// byte is moved a bounded number of times, whatever the pieces, and a frame is decoded once, when all its bytes have arrived.
#[derive(Drop)]
pub struct Splitter {
    alloc: Global,
    bytes: HeldBytes,
}

impl Model for Splitter {
    ghost use Rattle.std.specs.Prelude.{ℕ, List};

    ghost Value = { List ℕ };

    ghost view = { λ s. s.bytes };
}

impl Splitter {
    /// An empty splitter. Takes no memory.
    pub fn new(alloc: Global) -> Splitter
        ensures { result ≡ [] }
    {
        Splitter {
            alloc,
            bytes: HeldBytes::new(alloc),
        }
    }

    /// Takes the next piece of the stream, of any length. Fails only when out of memory, and then holds the same as before.
    pub fn feed(&mut self, piece: &[u8]) -> Result<(), Memory>
        ensures ok { OnOk result (self.new ≡ self.old ++ piece.now) }
        ensures err { OnErr result (self.new ≡ self.old) }
    {
        self.bytes.append(piece)
    }

    /// The next frame of the stream, taken from the front of the held bytes. `None` exactly where they are no whole frame yet, and
    /// show no fault. The faults are those of `decode`, except `Truncated`. `None` and a fault change nothing, so a fault of the
    /// first bytes stays, whatever is fed; after `Memory` the call may be made again.
    pub fn next_frame(&mut self) -> Result<Option<Frame>, DecodeFault>
        ensures frame { IsNextFrame self.old result self.new }
        ensures fault { IsNextFault self.old result }
        ensures retired { IfOk result (λ x. IfSome x (λ frame. frame.delta.members.retired ≡ 0)) }
    {
        match decode(self.alloc, self.bytes.as_slice()) {
            Ok((frame, len)) => {
                self.bytes.take_front(len);
                Ok(Some(frame))
            }
            Err(fault) => match fault {
                DecodeFault::Truncated => Ok(None),
                _ => Err(fault),
            },
        }
    }
}
