ghost use Rattle.std.specs.Prelude.{◌≡◌, ◌<◌, ◌≤◌, ◌==◌, true, false, length, take, IfOk, OnOk};
ghost use Rattle.std.specs.Prelude.{OnErr};
ghost use Rattle.std.specs.Io.KnownBytes.{Consumes, IsAtEnd, Keeps, ReadConsumes};
ghost use Rattle.ami_text.specs.StdDevices.{source_reader, source_ended, source_failed};

use crate::{Failed, Source};
use std::io::{ErrorKind, Read};

/// The most tries of a read that is interrupted; then the device counts as failed.
pub const READ_TRIES: u32 = 1000;

/// A source over a reader of std. Its bytes left to give are those of the reader, if the reader
/// exposes them.
#[derive(Drop)]
pub struct StdSource<R> {
    reader: R,
    ended: bool,
    failed: bool,
}

impl<R> StdSource<R> {
    /// A source of the reader's bytes from here on.
    pub fn new(reader: R) -> Self
        ensures reader { source_reader result ≡ reader }
        ensures ended { source_ended result ≡ false }
        ensures failed { source_failed result ≡ false }
    {
        StdSource {
            reader,
            ended: false,
            failed: false,
        }
    }

    /// The reader.
    pub fn into_inner(self) -> R
        ensures { result ≡ source_reader self }
    {
        self.reader
    }
}

// Reads once, and returns how many bytes it read. Retries a read that is interrupted. `Failed`
// after any other error, or after 1,000 tries; no contract says which.
fn read_retrying<R: Read>(reader: &mut R, piece: &mut [u8]) -> Result<usize, Failed>
    ensures count { IfOk result (λ n. n ≤ length piece.new) }
    ensures reader { ReadConsumes (R.remaining reader.old)
        (R.remaining reader.new) result piece.new }
{
    for _ in 0..READ_TRIES {
        match reader.read(piece) {
            Ok(count) => return Ok(count),
            Err(error) => {
                if error.kind() != ErrorKind::Interrupted {
                    return Err(Failed);
                }
            }
        }
    }
    Err(Failed)
}

impl<R: Read> Source for StdSource<R> {
    ghost left = { λ s. R.remaining (source_reader s) };

    ghost ended = { λ s. source_ended s };

    ghost failed = { λ s. source_failed s };

    /// Reads once from the reader. An interrupted read is retried, a thousand tries in all.
    ///
    /// `Failed`: the reader returned an error, `WouldBlock` and `TimedOut` included, or was
    /// interrupted a thousand times.
    fn read(&mut self, piece: &mut [u8]) -> Result<usize, Failed>
        requires { source_failed self.old ≡ false }
        ensures count { IfOk result (λ n. n ≤ length piece.new) }
        ensures bytes { IfOk result (λ n. Consumes (R.remaining (source_reader self.old))
            (R.remaining (source_reader self.new)) (take n piece.new)) }
        ensures end { IfOk result (λ n. 0 < length piece.old → source_ended self.new ≡ (n == 0)) }
        ensures all { IfOk result (λ n. n ≡ 0 → 0 < length piece.old
            → IsAtEnd (R.remaining (source_reader self.new))) }
        ensures no_room { OnOk result (length piece.old ≡ 0 →
            source_ended self.new ≡ source_ended self.old) }
        ensures works { OnOk result (source_failed self.new ≡ false) }
        ensures fails { OnErr result (source_failed self.new ≡ true) }
        ensures err_bytes { OnErr result (Keeps (R.remaining (source_reader self.old))
            (R.remaining (source_reader self.new))) }
        ensures err_end { OnErr result (source_ended self.new ≡ source_ended self.old) }
    {
        match read_retrying(&mut self.reader, piece) {
            Ok(count) => {
                if !piece.is_empty() {
                    self.ended = count == 0;
                }
                Ok(count)
            }
            Err(failed) => {
                self.failed = true;
                Err(failed)
            }
        }
    }
}
