ghost use Rattle.std.specs.Prelude.{◌≡◌, ◌<◌, ◌≤◌, true, false, length, nat_lt, take, IfOk, OnErr};
ghost use Rattle.std.specs.Io.KnownBytes.{Appends, Keeps, WriteAppends};
ghost use Rattle.ami_text.specs.StdDevices.{sink_writer, sink_failed, sink_waits};

use crate::{Failed, Sink};
use std::io::{ErrorKind, Write};

/// The most tries of a write or flush that is interrupted; then the device counts as failed.
pub const WRITE_TRIES: u32 = 1000;

/// A sink over a writer of std. Its taken bytes are those that the writer holds, if the writer
/// exposes them, so they begin with what it held before. Each write is flushed, so that a writer with
/// a buffer, such as `BufWriter`, sends them on at once.
#[derive(Drop)]
pub struct StdSink<W> {
    writer: W,
    // How often one write may wait until the writer's time limit.
    waits: u32,
    // Whether the last flush failed; then the next write fails.
    is_stuck: bool,
    failed: bool,
}

impl<W> StdSink<W> {
    /// A sink that passes its bytes to the writer. One write waits once.
    pub fn new(writer: W) -> Self
        ensures writer { sink_writer result ≡ writer }
        ensures waits { sink_waits result ≡ 1 }
        ensures failed { sink_failed result ≡ false }
    {
        StdSink {
            writer,
            waits: 1,
            is_stuck: false,
            failed: false,
        }
    }

    /// The sink with at most `waits` tries of a write that would block or times out; 0 counts as 1,
    /// and more than 1,000 as 1,000. So over a writer with a time limit, a write is given up after
    /// `waits` times that limit in which no byte was taken, and it reports bytes that were taken
    /// within one limit. No contract says how long a write waits.
    pub fn with_waits(self, waits: u32) -> Self
        ensures writer { sink_writer result ≡ sink_writer self }
        ensures waits { sink_waits result ≡ waits }
        ensures failed { sink_failed result ≡ sink_failed self }
    {
        StdSink {
            writer: self.writer,
            waits,
            is_stuck: self.is_stuck,
            failed: self.failed,
        }
    }

    /// The writer. If its last flush failed, this isn't reported.
    pub fn into_inner(self) -> W
        ensures { result ≡ sink_writer self }
    {
        self.writer
    }
}

// Writes once, and returns how many bytes the writer took. Retries a write that is interrupted, or
// that has waited and may wait again. `Failed` after any other error, or after 1,000 tries; no
// contract says which.
fn write_retrying<W: Write>(writer: &mut W, waits: u32, bytes: &[u8]) -> Result<usize, Failed>
    ensures count { IfOk result (λ n. n ≤ length bytes.now) }
    ensures writer { WriteAppends (W.contents writer.old) (W.contents writer.new) result bytes.now }
{
    let mut waits = waits;
    for _ in 0..WRITE_TRIES {
        match writer.write(bytes) {
            Ok(count) => return Ok(count),
            Err(error) => match error.kind() {
                ErrorKind::Interrupted => {}
                ErrorKind::WouldBlock | ErrorKind::TimedOut if waits > 1 => waits -= 1,
                _ => return Err(Failed),
            },
        }
    }
    Err(Failed)
}

// Flushes, and retries a flush that is interrupted. `Failed` after any other error, or after 1,000
// tries; no contract says which.
fn flush_retrying<W: Write>(writer: &mut W) -> Result<(), Failed>
    ensures { Keeps (W.contents writer.old) (W.contents writer.new) }
{
    for _ in 0..WRITE_TRIES {
        match writer.flush() {
            Ok(()) => return Ok(()),
            Err(error) => {
                if error.kind() != ErrorKind::Interrupted {
                    return Err(Failed);
                }
            }
        }
    }
    Err(Failed)
}

impl<W: Write> Sink for StdSink<W> {
    ghost taken = { λ s. W.contents (sink_writer s) };

    ghost failed = { λ s. sink_failed s };

    /// Writes once to the writer, and flushes it. An interrupted write or flush is retried, a
    /// thousand tries each; so is a write that would block or times out, as often as it may wait.
    ///
    /// `Failed`: the writer returned `WouldBlock` or `TimedOut` as often as a write may wait, another
    /// error once, or these two and `Interrupted` a thousand times together; or the flush of the
    /// write before, whose bytes the writer had taken, returned an error, or was interrupted a
    /// thousand times.
    fn write(&mut self, bytes: &[u8]) -> Result<usize, Failed>
        requires { sink_failed self.old ≡ false }
        ensures count { IfOk result (λ n. n ≤ length bytes.now) }
        ensures bytes { IfOk result (λ n. Appends (W.contents (sink_writer self.old))
            (W.contents (sink_writer self.new)) (take n bytes.now)) }
        ensures works { IfOk result (λ n. 0 < n → sink_failed self.new ≡ false) }
        ensures stuck { IfOk result
            (λ n. n ≡ 0 → sink_failed self.new ≡ nat_lt 0 (length bytes.now)) }
        ensures fails { OnErr result (sink_failed self.new ≡ true) }
        ensures err_bytes { OnErr result (Keeps (W.contents (sink_writer self.old))
            (W.contents (sink_writer self.new))) }
    {
        if self.is_stuck {
            self.failed = true;
            return Err(Failed);
        }
        match write_retrying(&mut self.writer, self.waits, bytes) {
            Ok(count) => {
                self.is_stuck = flush_retrying(&mut self.writer).is_err();
                self.failed = count == 0 && !bytes.is_empty();
                Ok(count)
            }
            Err(failed) => {
                self.failed = true;
                Err(failed)
            }
        }
    }
}
