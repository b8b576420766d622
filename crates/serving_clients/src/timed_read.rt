//! Streams of which each read is given the time for which it may wait.
ghost use Rattle.std.specs.Prelude.{◌≤◌, IfOk, length};

use std::cell::Cell;
use std::io::{ErrorKind, Read};
use std::net::TcpStream;
use std::time::Duration;

// How often a read or a write that is interrupted is tried.
pub(crate) const STREAM_TRIES: u32 = 1_000;

// Why a read or a write of a stream did nothing.
#[derive(Clone, Copy)]
pub(crate) enum StreamFault {
    // It waited for as long as it may.
    Late,
    // The stream failed.
    Failed,
}

// A stream that is read with a time for each read.
pub(crate) trait TimedRead {
    ghost use Rattle.std.specs.Prelude.{ℕ, List, Option};
    ghost use Rattle.std.specs.declared.time.Duration.{Duration};

    // `gives stream wait count piece`: a read that waits for `wait`, without end where there is none, may put the first `count` bytes of
    // `piece` there. A TCP stream says nothing of them.
    ghost gives: { Self → Option Duration → ℕ → List ℕ → Type 0 };

    // Reads once, and waits no longer than `wait`; without end where that is `None`. Returns how many bytes were read; 0 is the end.
    // Errors: `Late` if nothing came in time; `Failed` if the stream failed.
    fn read_within(&self, wait: Option<Duration>, piece: &mut [u8]) -> Result<usize, StreamFault>
        ensures count { IfOk result (λ n. n ≤ length piece.new) }
        ensures gives { IfOk result (λ n. gives self.now wait n piece.new) };
}

// Reads once, and tries again where the read is interrupted. Errors: `Late` if nothing came in time; `Failed` if the stream failed, or all
// 1,000 tries were interrupted.
fn read_once(stream: &TcpStream, piece: &mut [u8]) -> Result<usize, StreamFault>
    ensures { IfOk result (λ n. n ≤ length piece.new) }
{
    let mut reader = stream;
    for _ in 0..STREAM_TRIES {
        match reader.read(piece) {
            Ok(count) => return Ok(count),
            Err(error) => match error.kind() {
                ErrorKind::Interrupted => {}
                ErrorKind::WouldBlock | ErrorKind::TimedOut => return Err(StreamFault::Late),
                _ => return Err(StreamFault::Failed),
            },
        }
    }
    Err(StreamFault::Failed)
}

// A TCP stream that knows for how long its reads wait, so that a read sets this only where it changes.
#[derive(Drop)]
pub(crate) struct TimedStream<'a> {
    stream: &'a TcpStream,
    // `None`: no read was made yet.
    wait: Cell<Option<Option<Duration>>>,
}

impl<'a> TimedStream<'a> {
    // A stream of which nothing was read. From now on nothing else sets how long its reads wait.
    pub fn new(stream: &'a TcpStream) -> TimedStream<'a> {
        TimedStream {
            stream,
            wait: Cell::new(None),
        }
    }
}

impl<'a> TimedRead for TimedStream<'a> {
    ghost use Rattle.std.specs.Prelude.{⊤};

    ghost gives = { λ stream wait count piece. ⊤ };

    // Reads as `read_once` does, and first sets how long reads wait, if that changes. `Failed` also where it can't be set, as for 0.
    fn read_within(&self, wait: Option<Duration>, piece: &mut [u8]) -> Result<usize, StreamFault> {
        if self.wait.get() != Some(wait) {
            if self.stream.set_read_timeout(wait).is_err() {
                return Err(StreamFault::Failed);
            }
            self.wait.set(Some(wait));
        }
        read_once(self.stream, piece)
    }
}
