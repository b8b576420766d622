ghost use Rattle.std.specs.Prelude.{◌≡◌, ◌<◌, ◌≤◌, ◌==◌, ◌↔◌, ◌+◌, min, [], ◌++◌, true, false, Some};
ghost use Rattle.std.specs.Prelude.{None, length, take, unwrap_or, IsErr, IfOk, OnOk, OnErr};
ghost use Rattle.ami_text.specs.Devices.{one_less};

use crate::calls_left::count_down;
use crate::{Failed, Source};
use std::marker::Model;

/// A source over bytes in memory, that gives at most a given number of bytes a read, and may fail at
/// one of its reads.
#[derive(Drop)]
pub struct MemorySource<'a> {
    left: &'a [u8],
    most: usize,
    reads_left: Option<u64>,
    ended: bool,
    failed: bool,
}

impl<'a> Model for MemorySource<'a> {
    ghost use Rattle.std.specs.Prelude.{◌<◌};
    ghost use Rattle.ami_text.specs.Devices.{SourceState};

    ghost Value = { SourceState };

    ghost view = { λ s. record {
      left = s.left.now;
      most = s.most;
      reads_left = s.reads_left;
      ended = s.ended;
      failed = s.failed;
    } };

    ghost invariant = { λ s. 0 < s.most };
}

impl<'a> MemorySource<'a> {
    /// A source that gives these bytes, at most `most` of them a read.
    pub fn new(bytes: &'a [u8], most: usize) -> Self
        requires { 0 < most }
        ensures bytes { result.left ≡ bytes.now }
        ensures reads { (result.most ≡ most) × (result.reads_left ≡ None) }
        ensures works { (result.ended ≡ false) × (result.failed ≡ false) }
    {
        MemorySource {
            left: bytes,
            most,
            reads_left: None,
            ended: false,
            failed: false,
        }
    }

    /// A source that gives these bytes, at most `most` of them a read; `reads` reads succeed and the
    /// next one fails.
    pub fn failing(bytes: &'a [u8], most: usize, reads: u64) -> Self
        requires { 0 < most }
        ensures bytes { result.left ≡ bytes.now }
        ensures reads { (result.most ≡ most) × (result.reads_left ≡ Some reads) }
        ensures works { (result.ended ≡ false) × (result.failed ≡ false) }
    {
        MemorySource {
            left: bytes,
            most,
            reads_left: Some(reads),
            ended: false,
            failed: false,
        }
    }
}

// Copies from the front of the bytes what the piece has room for, at most `most` bytes, and
// returns how many.
fn copy_front(bytes: &[u8], most: usize, piece: &mut [u8]) -> usize
    ensures count { result ≡ min (min (length bytes.now) most) (length piece.old) }
    ensures bytes { take result piece.new ≡ take result bytes.now }
{
    let count = bytes.len().min(most).min(piece.len());
    piece[..count].copy_from_slice(&bytes[..count]);
    count
}

impl<'a> Source for MemorySource<'a> {
    ghost left = { λ s. Some s.left };

    ghost ended = { λ s. s.ended };

    ghost failed = { λ s. s.failed };

    ghost reads_left = { λ s. unwrap_or s.reads_left 0 };

    /// Gives the next bytes: as many as are left and the piece has room for, up to the most of one
    /// read.
    ///
    /// `Failed`: no more reads were to succeed.
    fn read(&mut self, piece: &mut [u8]) -> Result<usize, Failed>
        requires { self.old.failed ≡ false }
        ensures count { IfOk result (λ n. n ≤ length piece.new) }
        ensures bytes { IfOk result (λ n.
            self.old.left ≡ take n piece.new ++ self.new.left) }
        ensures end { IfOk result (λ n. 0 < length piece.old → self.new.ended ≡ (n == 0)) }
        ensures all { IfOk result (λ n. n ≡ 0 → 0 < length piece.old → self.new.left ≡ []) }
        ensures no_room { OnOk result (length piece.old ≡ 0 → self.new.ended ≡ self.old.ended) }
        ensures works { OnOk result (self.new.failed ≡ false) }
        ensures fails { OnErr result (self.new.failed ≡ true) }
        ensures err_bytes { OnErr result (self.new.left ≡ self.old.left) }
        ensures err_end { OnErr result (self.new.ended ≡ self.old.ended) }
        ensures counted { unwrap_or self.old.reads_left 0 ≤ unwrap_or self.new.reads_left 0 + 1 }

        // Gives as much as one read may give, until the read that is to fail.
        ensures most { IfOk result (λ n.
            n ≡ min (min (length self.old.left) self.old.most) (length piece.old)) }
        ensures due { IsErr result ↔ (self.old.reads_left ≡ Some 0) }
        ensures reads { self.new.reads_left ≡ one_less self.old.reads_left }
        ensures same { self.new.most ≡ self.old.most }
    {
        if !count_down(&mut self.reads_left) {
            self.failed = true;
            return Err(Failed);
        }
        let count = copy_front(self.left, self.most, piece);
        self.left = &self.left[count..];
        if !piece.is_empty() {
            self.ended = count == 0;
        }
        Ok(count)
    }
}
