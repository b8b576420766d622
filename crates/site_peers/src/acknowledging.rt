//! What acknowledges over a TCP stream the bytes that were read of it.
use crate::clock::millis;
use crate::heard_links::{HeardLinks, HeardPeer};
use crate::stream_ends::WRITE_WAITS;
use crate::{Acknowledge, AcknowledgeFault, Ending, ItemTime, Lag, LagStep, LinkLog, ReadCount};
use ami_text::StdSink;
use link_keys::Key;
use link_stream::{Acknowledgement, AcknowledgementSender};
use site_journal::DeskFault;
use std::net::TcpStream;
use std::sync::Wait;
use std::time::Clock;

// What acknowledges over a stream the bytes that were read of it, and asks for a whole where the site is behind.
#[derive(Drop)]
pub(crate) struct StreamAcknowledger<'a> {
    stream: &'a TcpStream,
    // Whether the site ends, and with it the link.
    ending: &'a Ending,
    heard: &'a HeardLinks,
    log: LinkLog<'a>,
    peer: &'a HeardPeer,
    sender: AcknowledgementSender,
    count: ReadCount,
    time: ItemTime,
    lag: Lag,
}

impl<'a> StreamAcknowledger<'a> {
    // What acknowledges the bytes of this stream, with tags under this key. At the time `now`, in milliseconds, none was read.
    // If the site was behind the peer before, it still is.
    pub fn new<R: Wait>(
        rt: &R,
        stream: &'a TcpStream,
        ending: &'a Ending,
        heard: &'a HeardLinks,
        log: LinkLog<'a>,
        peer: &'a HeardPeer,
        key: Key,
        now: u64,
    ) -> StreamAcknowledger<'a> {
        StreamAcknowledger {
            stream,
            ending,
            heard,
            log,
            peer,
            sender: AcknowledgementSender::new(key),
            count: ReadCount::new(now),
            time: ItemTime::new(now),
            lag: Lag::new(heard.is_behind(rt, peer.site), now),
        }
    }

    // Sends an acknowledgement. It is given up after 4 seconds in which the peer takes no byte. Error: `NotSent`.
    fn send(&mut self, acknowledgement: Acknowledgement) -> Result<(), AcknowledgeFault> {
        let mut sink = StdSink::new(self.stream).with_waits(WRITE_WAITS);
        match self.sender.send(&mut sink, acknowledgement) {
            Ok(()) => Ok(()),
            Err(fault) => Err(AcknowledgeFault::NotSent(fault)),
        }
    }

    // Sends the peer that its frame was refused. A failure is ignored, since the link ends anyway.
    pub fn refuse(&mut self) {
        let _ = self.send(Acknowledgement::Refused);
    }

    // If it is time, asks for a whole, or notes that the site has caught up, and logs that if it is news. Error: `NotSent`.
    fn catch_up<R: Wait>(&mut self, rt: &R, now: u64) -> Result<(), AcknowledgeFault> {
        match self.lag.step(now) {
            LagStep::Wait => Ok(()),
            LagStep::Ask => self.send(Acknowledgement::Behind),
            LagStep::CaughtUp => {
                if self.heard.set_behind(rt, self.peer.site, false) {
                    self.log.log_caught_up(rt, self.peer);
                }
                Ok(())
            }
        }
    }
}

impl<'a, R: Wait + Clock> Acknowledge<R> for StreamAcknowledger<'a> {
    // Counts the read, sends an acknowledgement if one is due, and then does as `catch_up`. Errors, in order: `Ending`;
    // `NoClock`; `Late`, an item takes too long; `NotSent`.
    fn after_read(&mut self, rt: &R, count: usize) -> Result<(), AcknowledgeFault> {
        if self.ending.reason(rt).is_some() {
            return Err(AcknowledgeFault::Ending);
        }
        let Some(now) = millis(rt) else {
            return Err(AcknowledgeFault::NoClock);
        };
        if self.time.after_read(count, now) {
            return Err(AcknowledgeFault::Late);
        }
        if let Some(all) = self.count.after_read(count, now) {
            self.send(Acknowledgement::Taken(all))?;
        }
        self.catch_up(rt, now)
    }

    // Notes that an item has ended. A frame counts as taken, until `fall_behind` says that it wasn't.
    fn after_item(&mut self, is_frame: bool, held: usize) {
        self.time.after_item(held);
        if is_frame {
            self.lag.give();
        }
    }

    // Notes that the site is behind the peer, and logs that if it is news.
    fn fall_behind(&mut self, rt: &R, fault: DeskFault) {
        self.lag.refuse();
        if self.heard.set_behind(rt, self.peer.site, true) {
            self.log.log_behind(rt, self.peer, fault);
        }
    }
}
