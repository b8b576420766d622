ghost use Rattle.std.specs.Prelude.{◌≡◌, ◌<◌, ◌≤◌, min, [], ◌++◌, nat_lt, true, false, Some, None};
ghost use Rattle.std.specs.Prelude.{length, take, IsErr, IfOk, OnErr};
ghost use Rattle.ami_text.specs.Devices.{one_less};

use crate::calls_left::count_down;
use crate::{Failed, Sink};
use std::alloc::Global;
use std::marker::Model;

/// A sink that keeps what it takes in memory, at most a given number of bytes a write, and may fail at
/// one of its writes.
#[derive(Drop)]
pub struct MemorySink {
    bytes: Vec<u8>,
    most: usize,
    writes_left: Option<u64>,
    failed: bool,
}

impl Model for MemorySink {
    ghost use Rattle.ami_text.specs.Devices.{SinkState};

    ghost Value = { SinkState };

    ghost view = { λ s. record {
      taken = s.bytes.items;
      most = s.most;
      writes_left = s.writes_left;
      failed = s.failed;
    } };
}

impl MemorySink {
    /// A sink that takes at most `most` bytes a write; it fails where memory is refused.
    pub fn new(alloc: Global, most: usize) -> Self
        ensures { result ≡ record { taken = []; most = most; writes_left = None; failed = false } }
    {
        MemorySink {
            bytes: Vec::new(alloc),
            most,
            writes_left: None,
            failed: false,
        }
    }

    /// A sink that takes at most `most` bytes a write; `writes` writes succeed, unless memory is
    /// refused, and the next one fails.
    pub fn failing(alloc: Global, most: usize, writes: u64) -> Self
        ensures { result
            ≡ record { taken = []; most = most; writes_left = Some writes; failed = false } }
    {
        MemorySink {
            bytes: Vec::new(alloc),
            most,
            writes_left: Some(writes),
            failed: false,
        }
    }

    /// The bytes that it has taken.
    pub fn as_slice(&self) -> &[u8]
        ensures { result.now ≡ self.now.taken }
    {
        &self.bytes
    }
}

impl Sink for MemorySink {
    ghost taken = { λ s. Some s.taken };

    ghost failed = { λ s. s.failed };

    /// Keeps the first bytes, up to the most of one write, and returns how many. If it keeps none of
    /// bytes that aren't empty, it has failed.
    ///
    /// `Failed`: no more writes were to succeed, or memory was refused. It has kept none of the bytes.
    fn write(&mut self, bytes: &[u8]) -> Result<usize, Failed>
        requires { self.old.failed ≡ false }
        ensures count { IfOk result (λ n. n ≤ length bytes.now) }
        ensures bytes { IfOk result (λ n.
            self.new.taken ≡ self.old.taken ++ take n bytes.now) }
        ensures works { IfOk result (λ n. 0 < n → self.new.failed ≡ false) }
        ensures stuck { IfOk result (λ n. n ≡ 0 → self.new.failed ≡ nat_lt 0 (length bytes.now)) }
        ensures fails { OnErr result (self.new.failed ≡ true) }
        ensures err_bytes { OnErr result (self.new.taken ≡ self.old.taken) }

        // Takes as much as one write may take, until the write that is to fail.
        ensures most { IfOk result (λ n. n ≡ min (length bytes.now) self.old.most) }
        ensures due { self.old.writes_left ≡ Some 0 → IsErr result }
        ensures writes { self.new.writes_left ≡ one_less self.old.writes_left }
        ensures same { self.new.most ≡ self.old.most }
    {
        if !count_down(&mut self.writes_left) {
            self.failed = true;
            return Err(Failed);
        }
        let count = bytes.len().min(self.most);
        if self.bytes.extend_from_slice(&bytes[..count]).is_err() {
            self.failed = true;
            return Err(Failed);
        }
        self.failed = count == 0 && !bytes.is_empty();
        Ok(count)
    }
}
