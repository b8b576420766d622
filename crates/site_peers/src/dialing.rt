//! The thread of a site that dials a peer, sends over the link what waits for it, and dials again.
use crate::clock::{millis, random};
use crate::closing::close_gently;
use crate::hello_source::HelloSource;
use crate::link_queue::LinkQueue;
use crate::meeting::{end_reason, is_own_refusal};
use crate::peer_links::Peer;
use crate::stream_ends::{StreamAcknowledgements, prepare};
use crate::window_sink::WindowSink;
use crate::{
    BackOff, DialEnd, Ending, LinkLog, OutletFault, PeerLinks, Ring, end_links, send_link,
};
use link_hello::{HelloFault, Refusal};
use link_stream::SendFault;
use std::alloc::Global;
use std::io::ErrorKind;
use std::net::{Net, TcpListener, TcpStream, ToSocketAddrs};
use std::random::RandomSource;
use std::sync::Wait;
use std::sync::atomic::Ordering;
use std::time::{Clock, Duration};
use thiserror::Error;

// How long a connection may take, in milliseconds, and how many addresses of a name are tried.
const CONNECT_MILLIS: u64 = 2_000;

const MOST_ADDRESSES: usize = 4;

// How long after a dialing the next one may begin that is hurried, in milliseconds: where the first led to no link, and where it did.
const HURRIED_MILLIS: u64 = 100;

const HURRIED_LINK_MILLIS: u64 = 1_000;

// A link that was up, and fell this long after it was dialed or later, in milliseconds, begins the pauses anew.
const LONG_MILLIS: u64 = 3_000;

/// Why there is no link to a peer.
#[derive(Clone, Copy, Debug, PartialEq, Eq, Error)]
pub enum DialFault {
    /// The host's name or number leads to no address.
    #[error("no such address")]
    NoAddress,
    /// None of the host's first 4 addresses accepts a connection within 2 seconds; this is the kind of the last one's error.
    #[error("cannot connect: {0}")]
    CannotConnect(ErrorKind),
    /// The system gives no random bytes or no clock, or doesn't prepare the stream.
    #[error("not prepared")]
    NotPrepared,
    /// There was no hello.
    #[error("hello: {0}")]
    Hello(HelloFault),
    /// The link has fallen.
    #[error(transparent)]
    Outlet(OutletFault),
    /// An item could not be sent.
    #[error(transparent)]
    Send(SendFault),
    /// The site ends.
    #[error("the site ends")]
    Ending,
}

// Connects to a host and a port: to the first of its first 4 addresses that accepts within 2 seconds. If the site ends it tries no further
// one. Errors, in order: `NoAddress`, `CannotConnect`.
fn connect<R: Net<Listener = TcpListener, Stream = TcpStream> + Wait>(
    rt: &R,
    ending: &Ending,
    address: &str,
) -> Result<TcpStream, DialFault> {
    let Ok(addresses) = address.to_socket_addrs(rt) else {
        return Err(DialFault::NoAddress);
    };
    let wait = Duration::from_millis(CONNECT_MILLIS);
    let mut tried: usize = 0;
    let mut fault = DialFault::NoAddress;
    for address in addresses {
        if tried >= MOST_ADDRESSES || ending.reason(rt).is_some() {
            break;
        }
        tried = tried.saturating_add(1);
        match TcpStream::connect_timeout(rt, &address, wait) {
            Ok(stream) => return Ok(stream),
            Err(error) => fault = DialFault::CannotConnect(error.kind()),
        }
    }
    Err(fault)
}

// Runs a link over a stream that was dialed: its hello, for which the peer has 3 seconds, and then beats and what waits for the peer, until
// the link falls or the site ends. If the site was asked to end, it sends what still waits first, for 2 seconds at most. Returns whether
// there was a link, and why there is none any more: `NotPrepared`, before the hello or where the clock can't be read; `Hello`, those of
// `meet_acceptor`; `Ending`; `Outlet`, the sink's fault; else `Send`.
fn run_link<R: Wait + Clock + RandomSource, G: Ring<R> + Drop>(
    rt: &R,
    alloc: Global,
    links: &PeerLinks<G>,
    log: LinkLog<'_>,
    peer: &Peer,
    stream: &TcpStream,
) -> (bool, DialFault) {
    let mut nonce = [0u8; 32];
    if prepare(stream).is_err() || rt.fill_bytes(&mut nonce).is_err() {
        return (false, DialFault::NotPrepared);
    }
    let Some(now) = millis(rt) else {
        return (false, DialFault::NotPrepared);
    };
    let mut source = HelloSource::new(rt, stream, now);
    let reader = StreamAcknowledgements::new(rt, alloc, links, peer, stream, now);
    let mut sink = WindowSink::new(rt, stream, reader);
    let mut queue = LinkQueue::new(links, log, peer);
    let link = send_link(
        rt,
        &mut source,
        &mut sink,
        &mut queue,
        &links.roll,
        &links.key,
        &nonce,
        &links.card,
    );
    let fault = sink.fault();
    drop(source);
    drop(sink);
    let (was_up, fault) = match (link, fault) {
        (Err(fault), _) => (false, DialFault::Hello(fault)),
        (Ok(Err(_)), Some(OutletFault::Ending)) => (true, DialFault::Ending),
        (Ok(Ok(())), _) if links.ending.reason(rt).is_some() => (true, DialFault::Ending),
        (Ok(Ok(())), _) => (true, DialFault::NotPrepared),
        (Ok(Err(_)), Some(fault)) => (true, DialFault::Outlet(fault)),
        (Ok(Err(fault)), None) => (true, DialFault::Send(fault)),
    };
    if was_up {
        queue.end(rt);
    }
    drop(queue);
    (was_up, fault)
}

// Dials once, and runs the link until it falls. When it is up the peer's number is noted, and it is logged. The stream is closed, gently if
// this site has refused the peer. Returns whether there was a link, and why there is none any more.
fn dial_once<
    R: Net<Listener = TcpListener, Stream = TcpStream> + Wait + Clock + RandomSource,
    G: Ring<R> + Drop,
>(rt: &R, alloc: Global, links: &PeerLinks<G>, log: LinkLog<'_>, peer: &Peer) -> (bool, DialFault) {
    let stream = match connect(rt, &links.ending, peer.address.as_str()) {
        Ok(stream) => stream,
        Err(fault) => return (false, fault),
    };
    let (was_up, fault) = run_link(rt, alloc, links, log, peer, &stream);
    if matches!(fault, DialFault::Hello(fault) if is_own_refusal(fault)) {
        close_gently(rt, &stream);
    }
    drop(stream);
    (was_up, fault)
}

// How a connection that has ended by this fault counts for the next one: as `Itself` or `Refused`, by the fault; else as `WasUp` if
// `was_long`, its link was up and fell 3 seconds after the dialing or later; else as `Failed`.
fn end_of(fault: DialFault, was_long: bool) -> DialEnd {
    match fault {
        DialFault::Hello(HelloFault::Refuses(Refusal::Itself)) => DialEnd::Itself,
        DialFault::Hello(
            HelloFault::Refuses(_) | HelloFault::IsRefused(_) | HelloFault::WrongSecret,
        )
        | DialFault::Outlet(OutletFault::FrameRefused) => DialEnd::Refused,
        _ if was_long => DialEnd::WasUp,
        _ => DialEnd::Failed,
    }
}

// Waits for `pause` milliseconds, or until the site ends. Unless the dialing before was refused or reached the site itself, as `end` says,
// it waits only until another site's link is heard after `hurries` was read, but for `least` milliseconds at least. Returns whether the
// site ends.
fn wait_to_dial<R: Wait + Clock, G: Drop>(
    rt: &R,
    links: &PeerLinks<G>,
    end: DialEnd,
    pause: u64,
    least: u64,
    hurries: u64,
) -> bool {
    if matches!(end, DialEnd::Refused | DialEnd::Itself) {
        return links.ending.wait_within(rt, Duration::from_millis(pause));
    }
    let least = pause.min(least);
    if links.ending.wait_within(rt, Duration::from_millis(least)) {
        return true;
    }
    let rest = Duration::from_millis(pause - least);
    links.ending.wait_unhurried(rt, rest, hurries)
}

// How many milliseconds are left of `time` that began at `since`. `None`: the clock could not be read.
fn left_of<R: Clock>(rt: &R, since: Option<u64>, time: u64) -> Option<u64> {
    let now = millis(rt)?;
    Some(since?.saturating_add(time).saturating_sub(now))
}

/// Dials the peer at this place of the list, sends over the link what waits for it, and dials again when the link falls, until the site
/// ends. Returns at once where there is no such place. Pauses between two dialings are those of a `BackOff`. The end of the site cuts a
/// pause short. A link from another site does so too, unless the dialing before was refused or reached the site itself; but the next one
/// begins 0.1 seconds after it at the earliest, or 1 second if it led to a link. A line is logged when a link is up, when it falls while
/// the site goes on, and when a dialing fails for another cause than the one before it. A peer that turns out to be the site itself is
/// noted. One that refuses the site as `TakenNumber`, `OlderCopy` or `SecondCopy` ends it.
pub fn dial_peer<
    R: Net<Listener = TcpListener, Stream = TcpStream> + Wait + Clock + RandomSource,
    G: Ring<R> + Drop,
>(rt: &R, alloc: Global, links: &PeerLinks<G>, log: LinkLog<'_>, place: usize) {
    let Some(peer) = links.peers.get(place) else {
        return;
    };
    let mut back_off = BackOff::new();
    let mut last = None;
    for _ in rt.forever() {
        let begun = millis(rt);
        let hurries = links.ending.hurries(rt);
        let (was_up, fault) = dial_once(rt, alloc, links, log, peer);
        if fault == DialFault::Ending {
            return;
        }
        if was_up || last != Some(fault) {
            log.log_down(rt, peer.address.as_str(), fault);
        }
        last = Some(fault);
        if let DialFault::Hello(hello) = fault {
            if let Some(reason) = end_reason(hello) {
                end_links(rt, links, log, reason);
            }
        }
        let was_long = was_up && left_of(rt, begun, LONG_MILLIS) == Some(0);
        let end = end_of(fault, was_long);
        if matches!(end, DialEnd::Itself) {
            peer.itself.store(1, Ordering::SeqCst);
        }
        let pause = back_off.pause(end, random(rt));
        let spacing = if was_up {
            HURRIED_LINK_MILLIS
        } else {
            HURRIED_MILLIS
        };
        let least = left_of(rt, begun, spacing).unwrap_or(0);
        if wait_to_dial(rt, links, end, pause, least, hurries) {
            return;
        }
    }
}
