//! What is written to a client that must read in time.
ghost use Rattle.std.specs.Prelude.{◌≡◌, ◌↔◌, ◌+◌, ◌-◌, ◌<◌, ◌≤◌, IfOk, IsTrue, None, Some};
ghost use Rattle.std.specs.Prelude.{false, length};
ghost use Rattle.std.specs.Duration.{as_nanos};
ghost use Rattle.std.specs.Io.KnownBytes.{WriteAppends};
ghost use Rattle.std.specs.Time.{instant_nanos};

use crate::client_log::Late;
use crate::deadlines::time_left;
use crate::timed_read::{STREAM_TRIES, StreamFault};
use ami_text::{Failed, Sink};
use std::io::{ErrorKind, Write};
use std::time::{Clock, Duration, Instant};

// How many bytes a client must read while it is waited for.
const LEAST_READ: u64 = 4_096;

// A stretch of time in which a client was waited for, and how many bytes it read in it.
#[derive(Clone, Copy)]
struct Waiting {
    since: Instant,
    // The end of the last wait.
    last: Instant,
    read: u64,
}

impl Waiting {
    // The stretch that begins with a wait that has ended at this time.
    fn from(now: Instant) -> Waiting
        ensures { result ≡ record { since = now; last = now; read = 0 } }
    {
        Waiting {
            since: now,
            last: now,
            read: 0,
        }
    }

    // The stretch after one wait more, which has ended at `now`. If the wait before it had ended `limit` ago or earlier, a new stretch
    // begins.
    fn waited(self, now: Instant, limit: Duration) -> Waiting
        ensures goes_on { instant_nanos now - instant_nanos self.last < as_nanos limit
            → result ≡ record self { last = now } }
        ensures anew { as_nanos limit ≤ instant_nanos now - instant_nanos self.last
            → result ≡ record { since = now; last = now; read = 0 } }
    {
        if time_left(limit, now.duration_since(self.last)).is_none() {
            return Waiting::from(now);
        }
        Waiting {
            since: self.since,
            last: now,
            read: self.read,
        }
    }

    // Whether it has lasted for `limit`.
    fn has_lasted(self, limit: Duration) -> bool
        ensures { IsTrue result
            ↔ (as_nanos limit ≤ instant_nanos self.last - instant_nanos self.since) }
    {
        time_left(limit, self.last.duration_since(self.since)).is_none()
    }

    // The stretch after a read of this many bytes. `None`: the client has read enough in it.
    fn after_read(self, bytes: usize) -> Option<Waiting>
        ensures enough { LEAST_READ ≤ self.read + bytes → result ≡ None }
        ensures few { self.read + bytes < LEAST_READ
            → result ≡ Some (record self { read = self.read + bytes }) }
    {
        let read = self.read.saturating_add(bytes as u64);
        if read >= LEAST_READ {
            return None;
        }
        Some(Waiting {
            since: self.since,
            last: self.last,
            read,
        })
    }
}

// A sink over a writer whose writes wait for a short time. A client that is waited for again and again for as long as `limit`, and reads
// fewer than 4,096 bytes in that time, is given up, and one for which the clock can't be read: the sink fails.
pub(crate) struct ClientSink<'a, R, W> {
    rt: &'a R,
    writer: W,
    limit: Duration,
    waiting: Option<Waiting>,
    // Why the client is given up, once it is; the next write then fails.
    pub late: Option<Late>,
    failed: bool,
}

impl<'a, R, W: Drop> Drop for ClientSink<'a, R, W> {
    // Drops the writer; it owns nothing else.
    fn drop(self) {
        let ClientSink {
            rt: _,
            writer,
            limit: _,
            waiting: _,
            late: _,
            failed: _,
        } = self;
        drop(writer);
    }
}

// Writes once, and tries again where the write is interrupted. Returns how many bytes were written. Errors: `Late` if the write waited in
// vain; `Failed` if the writer failed, or all 1,000 tries were interrupted.
fn write_once<W: Write>(writer: &mut W, bytes: &[u8]) -> Result<usize, StreamFault>
    ensures count { IfOk result (λ n. n ≤ length bytes.now) }
    ensures writer { WriteAppends (W.contents writer.old) (W.contents writer.new) result bytes.now }
{
    for _ in 0..STREAM_TRIES {
        match writer.write(bytes) {
            Ok(count) => return Ok(count),
            Err(error) => match error.kind() {
                ErrorKind::Interrupted => {}
                ErrorKind::WouldBlock | ErrorKind::TimedOut => return Err(StreamFault::Late),
                _ => return Err(StreamFault::Failed),
            },
        }
    }
    Err(StreamFault::Failed)
}

impl<'a, R: Clock, W: Write> ClientSink<'a, R, W> {
    // A sink that hands what it takes to the writer.
    pub fn new(rt: &'a R, writer: W, limit: Duration) -> ClientSink<'a, R, W>
        ensures writer { result.writer ≡ writer }
        ensures failed { result.failed ≡ false }
    {
        ClientSink {
            rt,
            writer,
            limit,
            waiting: None,
            late: None,
            failed: false,
        }
    }

    // Counts bytes that the client has read. Once they are 4,096 in a stretch it is over; no contract says this.
    fn count_read(&mut self, bytes: usize)
        ensures writer { self.new.writer ≡ self.old.writer }
        ensures failed { self.new.failed ≡ self.old.failed }
    {
        if let Some(waiting) = self.waiting {
            self.waiting = waiting.after_read(bytes);
        }
    }

    // Counts a wait. The client is given up if the clock can't be read, or the stretch has lasted for the limit; no contract says this.
    fn count_wait(&mut self)
        ensures writer { self.new.writer ≡ self.old.writer }
        ensures failed { self.new.failed ≡ self.old.failed }
    {
        let Ok(now) = Instant::now(self.rt) else {
            self.late = Some(Late::NoClock);
            return;
        };
        let waiting = match self.waiting {
            None => Waiting::from(now),
            Some(waiting) => waiting.waited(now, self.limit),
        };
        self.waiting = Some(waiting);
        self.late = if waiting.has_lasted(self.limit) {
            Some(Late::Reading)
        } else {
            None
        };
    }

    // Writes until a write doesn't wait in vain, and returns how many bytes that took. `Failed`: the client is given up, the writer
    // fails, or 1,000 writes have waited in vain. Bytes and waits are counted: a write that takes only some of its bytes has waited too,
    // and where the client is then given up the next write fails.
    fn write_in_time(&mut self, bytes: &[u8]) -> Result<usize, Failed>
        ensures count { IfOk result (λ n. n ≤ length bytes.now) }
        ensures writer { WriteAppends (W.contents self.old.writer) (W.contents self.new.writer)
            result bytes.now }
        ensures failed { self.new.failed ≡ self.old.failed }
    {
        for _ in 0..STREAM_TRIES {
            match write_once(&mut self.writer, bytes) {
                Ok(count) => {
                    self.count_read(count);
                    if count < bytes.len() {
                        self.count_wait();
                    }
                    return Ok(count);
                }
                Err(StreamFault::Late) => {
                    self.count_wait();
                    if self.late.is_some() {
                        return Err(Failed);
                    }
                }
                Err(StreamFault::Failed) => return Err(Failed),
            }
        }
        Err(Failed)
    }
}

impl<'a, R: Clock, W: Write> Sink for ClientSink<'a, R, W> {
    ghost taken = { λ s. W.contents s.writer };

    ghost failed = { λ s. s.failed };

    // Writes as `write_in_time` does, but at once `Failed` where the client was given up before. The sink has failed after `Failed`, and
    // where none of bytes that aren't empty was taken.
    fn write(&mut self, bytes: &[u8]) -> Result<usize, Failed> {
        if self.late.is_some() {
            self.failed = true;
            return Err(Failed);
        }
        match self.write_in_time(bytes) {
            Ok(count) => {
                self.failed = count == 0 && !bytes.is_empty();
                Ok(count)
            }
            Err(failed) => {
                self.failed = true;
                Err(failed)
            }
        }
    }
}
