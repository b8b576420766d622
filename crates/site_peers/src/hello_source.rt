//! What a peer sends of its hello.
ghost use Rattle.std.specs.Prelude.{◌≡◌, ◌≤◌, IfOk, false, length};

use crate::clock::millis;
use ami_text::{Failed, Source};
use std::io::{ErrorKind, Read};
use std::net::TcpStream;
use std::time::{Clock, Duration};

// How long a whole hello may take, in milliseconds.
const HELLO_MILLIS: u64 = 3_000;

// How often a read is tried that is interrupted.
const READ_TRIES: u32 = 1_000;

// What a peer sends over a stream, until the time for its hello is over: then a read fails.
pub(crate) struct HelloSource<'a, R> {
    rt: &'a R,
    stream: &'a TcpStream,
    // When the time is over.
    over: u64,
    ended: bool,
    failed: bool,
}

impl<'a, R> Drop for HelloSource<'a, R> {
    fn drop(self) {
        let HelloSource {
            rt: _,
            stream: _,
            over: _,
            ended: _,
            failed: _,
        } = self;
    }
}

impl<'a, R: Clock> HelloSource<'a, R> {
    // What a peer sends whose hello begins at this time, in milliseconds, and must be there 3 seconds later.
    pub fn new(rt: &'a R, stream: &'a TcpStream, now: u64) -> HelloSource<'a, R>
        ensures { result.failed ≡ false }
    {
        HelloSource {
            rt,
            stream,
            over: now.saturating_add(HELLO_MILLIS),
            ended: false,
            failed: false,
        }
    }

    // How long a read may wait now. `None`: the time is over, or the clock can't be read.
    fn wait(&self) -> Option<Duration> {
        let now = millis(self.rt)?;
        match self.over.saturating_sub(now) {
            0 => None,
            left => Some(Duration::from_millis(left)),
        }
    }

    // Reads once, and tries again where the read is interrupted. `Failed`: the time is over, the clock can't be read, the stream fails, or
    // all 1,000 tries were interrupted.
    fn read_in_time(&self, piece: &mut [u8]) -> Result<usize, Failed>
        ensures { IfOk result (λ n. n ≤ length piece.new) }
    {
        let mut reader = self.stream;
        for _ in 0..READ_TRIES {
            let wait = self.wait();
            if wait.is_none() || self.stream.set_read_timeout(wait).is_err() {
                return Err(Failed);
            }
            match reader.read(piece) {
                Ok(count) => return Ok(count),
                Err(error) => {
                    if error.kind() != ErrorKind::Interrupted {
                        return Err(Failed);
                    }
                }
            }
        }
        Err(Failed)
    }
}

impl<'a, R: Clock> Source for HelloSource<'a, R> {
    ghost use Rattle.std.specs.Prelude.{None};

    ghost left = { λ s. None };

    ghost ended = { λ s. s.ended };

    ghost failed = { λ s. s.failed };

    // Reads as `read_in_time` does. A failure stays noted; the stream has ended if a read into some room gives no byte.
    fn read(&mut self, piece: &mut [u8]) -> Result<usize, Failed> {
        match self.read_in_time(piece) {
            Ok(count) => {
                if !piece.is_empty() {
                    self.ended = count == 0;
                }
                Ok(count)
            }
            Err(failed) => {
                self.failed = true;
                Err(failed)
            }
        }
    }
}
