//! How the TCP stream of a link is prepared, and how the acknowledgements are read that come back over it.
use crate::clock::millis;
use crate::peer_links::Peer;
use crate::window_sink::AcknowledgementReader;
use crate::{EndReason, OutletFault, PeerLinks, Ring, WindowFault};
use link_keys::Key;
use link_stream::{Acknowledgement, AcknowledgementReceiver};
use std::alloc::Global;
use std::io;
use std::io::{ErrorKind, Read};
use std::net::TcpStream;
use std::sync::Wait;
use std::time::{Clock, Duration};

// How long each try of a write waits, in milliseconds.
const WRITE_MILLIS: u64 = 100;

// How often a write is tried that waits.
pub(crate) const WRITE_WAITS: u32 = 40;

// How long the first byte of a connection is waited for, in milliseconds, so that a silent one doesn't keep a thread.
const FIRST_BYTE_MILLIS: u64 = 500;

// How long a peer may be silent, in milliseconds.
pub(crate) const SILENT_MILLIS: u64 = 4_000;

// How often acknowledgements are looked for where none is needed, and how long that waits, in milliseconds.
const LOOK_MILLIS: u64 = 900;

const LOOK_WAIT_MILLIS: u64 = 1;

// How long no acknowledgement may be found without waiting, in milliseconds, since the last one, which may have come a look earlier.
const MISSED_MILLIS: u64 = SILENT_MILLIS - LOOK_MILLIS;

// How long a read waits for an acknowledgement that is needed, in milliseconds.
const NEEDED_WAIT_MILLIS: u64 = 250;

// How long a site that was asked to end sends what waits, in milliseconds.
const END_MILLIS: u64 = 2_000;

// How many bytes of acknowledgements are read at a time.
const PIECE: usize = 1_024;

// Prepares a stream for its hello and what follows: what is written leaves at once, and each try of a write waits for at most 0.1 seconds.
// Errors are the system's.
pub(crate) fn prepare(stream: &TcpStream) -> io::Result<()> {
    stream.set_nodelay(true)?;
    stream.set_write_timeout(Some(Duration::from_millis(WRITE_MILLIS)))
}

// Whether a first byte comes within 0.5 seconds, which stays the stream's limit of a read; the byte stays unread. False also if the peer
// closes, or a call fails.
pub(crate) fn has_first_byte(stream: &TcpStream) -> bool {
    let wait = Duration::from_millis(FIRST_BYTE_MILLIS);
    if stream.set_read_timeout(Some(wait)).is_err() {
        return false;
    }
    let mut piece = [0u8; 1];
    match stream.peek(&mut piece) {
        Ok(count) => count > 0,
        Err(_) => false,
    }
}

// The acknowledgements of a link that come back over its stream. Where the peer asks for a whole, one is due.
pub(crate) struct StreamAcknowledgements<'a, R, G: Drop> {
    rt: &'a R,
    alloc: Global,
    links: &'a PeerLinks<G>,
    peer: &'a Peer,
    stream: &'a TcpStream,
    // `None` before the hello is over.
    receiver: Option<AcknowledgementReceiver>,
    // The last number that came.
    taken: u64,
    // When it was last looked for one, and when one last came.
    looked: u64,
    came: u64,
    // How often it had to look at the connection when it last did.
    looks: u64,
    // Since when it is known that the site ends.
    ended: Option<u64>,
}

impl<'a, R, G: Drop> Drop for StreamAcknowledgements<'a, R, G> {
    fn drop(self) {
        let StreamAcknowledgements {
            rt: _,
            alloc: _,
            links: _,
            peer: _,
            stream: _,
            receiver,
            taken: _,
            looked: _,
            came: _,
            looks: _,
            ended: _,
        } = self;
        drop(receiver);
    }
}

impl<'a, R: Wait + Clock, G: Ring<R> + Drop> StreamAcknowledgements<'a, R, G> {
    // The acknowledgements that come over this stream after its hello, which begins at the time `now`, in milliseconds.
    pub fn new(
        rt: &'a R,
        alloc: Global,
        links: &'a PeerLinks<G>,
        peer: &'a Peer,
        stream: &'a TcpStream,
        now: u64,
    ) -> StreamAcknowledgements<'a, R, G> {
        StreamAcknowledgements {
            rt,
            alloc,
            links,
            peer,
            stream,
            receiver: None,
            taken: 0,
            looked: now,
            came: now,
            looks: peer.queue.looks(),
            ended: None,
        }
    }

    // Whether the site ends, and what waits is not to be sent any more: a site that was asked to end sends for up to 2 seconds after the
    // first call that finds that.
    fn is_over(&mut self, now: u64) -> bool {
        match self.links.ending.reason(self.rt) {
            None => false,
            Some(EndReason::Asked) => {
                let ended = self.ended.unwrap_or(now);
                self.ended = Some(ended);
                now >= ended.saturating_add(END_MILLIS)
            }
            Some(_) => true,
        }
    }

    // Takes a piece of the acceptor's bytes. Returns the last number in it, which is the greatest; `None`: there is none. Each `Behind` in
    // it makes a whole due, and rings. The first error ends it: `Receive`; `Window`, a number went back; `FrameRefused`. Before `begin` it
    // takes nothing.
    fn take(&mut self, piece: &[u8]) -> Result<Option<u64>, OutletFault> {
        let Some(receiver) = &mut self.receiver else {
            return Ok(None);
        };
        if let Err(fault) = receiver.feed(piece) {
            return Err(OutletFault::Receive(fault));
        }
        let mut last = None;
        for _ in 0..PIECE {
            match receiver.next_acknowledgement() {
                Ok(Some(Acknowledgement::Taken(count))) => {
                    if count < self.taken {
                        return Err(OutletFault::Window(WindowFault::WentBack));
                    }
                    self.taken = count;
                    last = Some(count);
                }
                Ok(Some(Acknowledgement::Behind)) => {
                    self.peer.queue.require_whole(self.rt);
                    self.links.bell.ring(self.rt);
                }
                Ok(Some(Acknowledgement::Refused)) => return Err(OutletFault::FrameRefused),
                Ok(None) => return Ok(last),
                Err(fault) => return Err(OutletFault::Receive(fault)),
            }
        }
        Ok(last)
    }

    // Reads once, for at most `wait` milliseconds, and takes what came. Returns the last number in it; `None`: nothing came, or no number.
    // Errors: `Closed` if the stream fails or the peer has closed it; those of `take`.
    fn read_once(&mut self, wait: u64) -> Result<Option<u64>, OutletFault> {
        let wait = Duration::from_millis(wait);
        if self.stream.set_read_timeout(Some(wait)).is_err() {
            return Err(OutletFault::Closed);
        }
        let mut piece = [0u8; PIECE];
        let mut reader = self.stream;
        match reader.read(&mut piece) {
            Ok(0) => Err(OutletFault::Closed),
            Ok(count) => self.take(&piece[..count]),
            Err(error) => match error.kind() {
                ErrorKind::Interrupted | ErrorKind::WouldBlock | ErrorKind::TimedOut => Ok(None),
                _ => Err(OutletFault::Closed),
            },
        }
    }
}

impl<'a, R: Wait + Clock, G: Ring<R> + Drop> AcknowledgementReader
    for StreamAcknowledgements<'a, R, G> {
    // If the clock can't be read, acknowledgements are awaited since the hello began.
    fn begin(&mut self, key: Key) {
        self.receiver = Some(AcknowledgementReceiver::new(self.alloc, key));
        self.looks = self.peer.queue.looks();
        if let Some(now) = millis(self.rt) {
            self.looked = now;
            self.came = now;
        }
    }

    // Waits for at most 0.25 seconds if `waits` is true; else it reads at most each 0.9 seconds, and where the peer's queue has it look at
    // the connection, and waits for at most 1 ms. Errors, in order: `NoClock`; `Ending`; those of `read_once`; `Silent` if no number was
    // found for 4 seconds, without waiting for 3.1. Before `begin` it returns `None` at once.
    fn read_last(&mut self, waits: bool) -> Result<Option<u64>, OutletFault> {
        if self.receiver.is_none() {
            return Ok(None);
        }
        let Some(now) = millis(self.rt) else {
            return Err(OutletFault::NoClock);
        };
        if self.is_over(now) {
            return Err(OutletFault::Ending);
        }
        let looks = self.peer.queue.looks();
        if !waits && looks == self.looks && now < self.looked.saturating_add(LOOK_MILLIS) {
            return Ok(None);
        }
        self.looks = looks;
        self.looked = now;
        let (wait, most) = if waits {
            (NEEDED_WAIT_MILLIS, SILENT_MILLIS)
        } else {
            (LOOK_WAIT_MILLIS, MISSED_MILLIS)
        };
        let last = self.read_once(wait)?;
        if last.is_some() {
            self.came = now;
        } else if now >= self.came.saturating_add(most) {
            return Err(OutletFault::Silent);
        }
        Ok(last)
    }
}
