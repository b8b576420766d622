//! A thread of a site that accepts links, and lets the site take the frames that come over them.
ghost use Rattle.std.specs.Prelude.{◌≡◌, List, Option};
ghost use Rattle.site_peers.specs.Turns.{WorksInTurn};

use crate::clock::millis;
use crate::closing::close_gently;
use crate::heard_frames::hear_frames;
use crate::heard_links::HeardPeer;
use crate::hello_source::HelloSource;
use crate::meeting::{end_reason, is_own_refusal};
use crate::peer_links::wake;
use crate::stream_ends::{WRITE_WAITS, has_first_byte, prepare};
use crate::{EndReason, InletFault, LinkLog, Meeting, PeerLinks, Ring, end_links, meet_dialer};
use ami_text::StdSink;
use link_hello::{HelloFault, Refusal};
use site_journal::{DeskFault, Port, Receipt, TakeFault};
use std::alloc::Global;
use std::io::ErrorKind;
use std::net::{Net, SocketAddr, TcpListener, TcpStream};
use std::random::RandomSource;
use std::sync::Wait;
use std::thread;
use std::time::{Clock, Duration};
use thiserror::Error;

// How long a thread waits after a failed accept, in milliseconds.
const PAUSE_MILLIS: u64 = 20;

/// Why a link from a peer has ended.
#[derive(Clone, Copy, Debug, PartialEq, Eq, Error)]
pub enum HearFault {
    /// The system gives no random bytes or no clock, or doesn't prepare the stream.
    #[error("not prepared")]
    NotPrepared,
    /// There was no hello.
    #[error("hello: {0}")]
    Hello(HelloFault),
    /// No frame comes any more.
    #[error(transparent)]
    Inlet(InletFault),
    /// The site refuses a frame.
    #[error("frame refused: {0}")]
    Refused(DeskFault),
    /// The site's store has failed.
    #[error("the store has failed")]
    StoreFailed,
}

// Waits for the next connection. Where the system fails to accept, that is logged once a call, and tried again every 20 ms; an aborted
// connection is passed over. `None`: the site ends, which is seen only after a try; a connection that came is dropped.
fn accept<R: Wait + Clock, G: Drop>(
    rt: &R,
    links: &PeerLinks<G>,
    log: LinkLog<'_>,
    listener: &TcpListener,
) -> Option<(TcpStream, SocketAddr)> {
    let mut is_logged = false;
    for _ in rt.forever() {
        let accepted = listener.accept();
        if links.ending.reason(rt).is_some() {
            drop(accepted);
            return None;
        }
        match accepted {
            Ok(connection) => return Some(connection),
            Err(error) if error.kind() == ErrorKind::ConnectionAborted => {}
            Err(error) => {
                if !is_logged {
                    log.log_no_connection(rt, &error);
                    is_logged = true;
                }
                thread::sleep(rt, Duration::from_millis(PAUSE_MILLIS));
            }
        }
    }
    unreachable!()
}

// Runs the hello over a stream that was accepted, for which the peer has 3 seconds. Errors, in order: `NotPrepared`; `Hello`, those of
// `meet_dialer`.
fn meet<R: Wait + Clock + RandomSource, G: Drop>(
    rt: &R,
    links: &PeerLinks<G>,
    stream: &TcpStream,
) -> Result<Meeting, HearFault> {
    let mut nonce = [0u8; 32];
    if prepare(stream).is_err() || rt.fill_bytes(&mut nonce).is_err() {
        return Err(HearFault::NotPrepared);
    }
    let Some(now) = millis(rt) else {
        return Err(HearFault::NotPrepared);
    };
    let mut source = HelloSource::new(rt, stream, now);
    let mut sink = StdSink::new(stream).with_waits(WRITE_WAITS);
    let met = meet_dialer(
        rt,
        &mut source,
        &mut sink,
        &links.roll,
        &links.key,
        &nonce,
        &links.card,
    );
    match met {
        Ok(meeting) => Ok(meeting),
        Err(fault) => Err(HearFault::Hello(fault)),
    }
}

// Whether a frame was refused as `Conflict`: it gives a change another value than this site has.
fn is_conflict(fault: HearFault) -> bool {
    matches!(
        fault,
        HearFault::Refused(DeskFault::Take(TakeFault::Conflict))
    )
}

// Why the site ends after a link that has ended by this fault: the peer refuses it as `TakenNumber`, `OlderCopy` or `SecondCopy`; it
// refuses a frame as `NotMine`, or one as `Conflict` and the last ones of more sites than half as many as it dials: if one alone conflicts,
// that one is likely wrong. `None`: it doesn't end.
fn reason_of<R: Wait, G: Drop>(
    rt: &R,
    links: &PeerLinks<G>,
    fault: HearFault,
) -> Option<EndReason> {
    match fault {
        HearFault::Hello(fault) => end_reason(fault),
        HearFault::Refused(DeskFault::Take(TakeFault::NotMine)) => Some(EndReason::NotMine),
        _ if is_conflict(fault) && links.is_outvoted(rt) => Some(EndReason::Conflict),
        _ => None,
    }
}

// Whether a link has ended by a refusal of this site, which the peer must learn.
fn is_refusal(fault: HearFault) -> bool {
    match fault {
        HearFault::Hello(fault) => is_own_refusal(fault),
        HearFault::Refused(_) => true,
        HearFault::NotPrepared | HearFault::Inlet(_) | HearFault::StoreFailed => false,
    }
}

// Notes why a connection has led to no link, unless the site has dialed itself. Logs that, unless the last one from its address had the
// same cause.
fn log_refused<R: Wait, G: Drop>(
    rt: &R,
    links: &PeerLinks<G>,
    log: LinkLog<'_>,
    address: &SocketAddr,
    fault: HearFault,
) {
    let is_itself = matches!(
        fault,
        HearFault::Hello(HelloFault::IsRefused(Refusal::Itself))
    );
    if !is_itself && links.heard.note_cause(rt, address.ip(), fault) {
        log.log_refused(rt, address, fault);
    }
}

// Hears one link, from its hello to its end. That it is up is logged, earlier causes of its address are forgotten, and the dialers are
// hurried, as by `PeerLinks::hurry_dialers`. Returns why it has ended, or why the hello led to no link. The former is logged unless the
// site ends, the latter by `log_refused`.
fn hear_link<R: Wait + Clock + RandomSource, G: Drop, P: Port<R>>(
    rt: &R,
    alloc: Global,
    links: &PeerLinks<G>,
    log: LinkLog<'_>,
    stream: &TcpStream,
    address: SocketAddr,
    port: &mut P,
) -> HearFault
    ensures works { (works : List (List Receipt × Option DeskFault))
        × WorksInTurn P.makes P.refuses port.old works port.new }
    ensures ordinal { P.ordinal port.new ≡ P.ordinal port.old }
{
    let Meeting { site, keys } = match meet(rt, links, stream) {
        Ok(meeting) => meeting,
        Err(fault) => {
            log_refused(rt, links, log, &address, fault);
            return fault;
        }
    };
    let peer = HeardPeer { site, address };
    links.heard.forget_cause(rt, address.ip());
    log.log_heard(rt, &peer);
    links.hurry_dialers(rt, site);
    let fault = hear_frames(rt, alloc, links, log, stream, &peer, keys, port);
    if is_conflict(fault) {
        links.heard.note_disputed(rt, site);
    }
    if links.ending.reason(rt).is_none() {
        log.log_lost(rt, &peer, fault);
    }
    fault
}

// Ends the site after a link that has ended by this fault, if it must end; then closes the link's stream, gently after a refusal by this
// site, which takes 2 seconds at most.
fn end_link<R: Net<Listener = TcpListener, Stream = TcpStream> + Wait + Clock, G: Ring<R> + Drop>(
    rt: &R,
    links: &PeerLinks<G>,
    log: LinkLog<'_>,
    stream: TcpStream,
    fault: HearFault,
) {
    if let Some(reason) = reason_of(rt, links, fault) {
        end_links(rt, links, log, reason);
    }
    if is_refusal(fault) {
        close_gently(rt, &stream);
    }
    drop(stream);
}

// Hears one connection, if a first byte comes over it within 0.5 seconds, to its end, and closes it. Without that byte nothing is logged.
fn hear_connection<
    R: Net<Listener = TcpListener, Stream = TcpStream> + Wait + Clock + RandomSource,
    G: Ring<R> + Drop,
    P: Port<R>,
>(
    rt: &R,
    alloc: Global,
    links: &PeerLinks<G>,
    log: LinkLog<'_>,
    stream: TcpStream,
    address: SocketAddr,
    port: &mut P,
)
    ensures works { (works : List (List Receipt × Option DeskFault))
        × WorksInTurn P.makes P.refuses port.old works port.new }
    ensures ordinal { P.ordinal port.new ≡ P.ordinal port.old }
{
    if !has_first_byte(&stream) {
        drop(stream);
        return;
    }
    let fault = hear_link(rt, alloc, links, log, &stream, address, port);
    end_link(rt, links, log, stream, fault);
}

/// Accepts one connection after another at a listener, and lets the site take the frames that come over each, by this port, until the site
/// ends. Where the port lacks room or memory for a frame, the frame is dropped, and the peer is asked for a whole each 5 seconds until the
/// site has caught up. Any other frame that the port refuses ends its link; `NotMine` ends the site, as do `Conflict` of more sites than
/// half as many as it dials, and a peer that refuses it as `TakenNumber`, `OlderCopy` or `SecondCopy`. A connection is closed over which
/// nothing comes for 0.5 seconds, or no whole hello for 3; a link ends over which nothing comes for 4, or whose item takes 60 and comes by
/// fewer than 8,000 bytes a second. Lines are logged when a link is up and when it is down, when the site falls behind a peer and when it
/// has caught up, and when a connection leads to no link for another cause than the last one from its address. At the end it wakes another
/// thread that accepts links.
pub fn hear_peers<
    R: Net<Listener = TcpListener, Stream = TcpStream> + Wait + Clock + RandomSource,
    G: Ring<R> + Drop,
    P: Port<R>,
>(
    rt: &R,
    alloc: Global,
    links: &PeerLinks<G>,
    log: LinkLog<'_>,
    listener: &TcpListener,
    port: &mut P,
)
    // The port did works in turn: the steps of receipts, then a stop for a fault if there is one.
    ensures works { (works : List (List Receipt × Option DeskFault))
        × WorksInTurn P.makes P.refuses port.old works port.new }
    ensures ordinal { P.ordinal port.new ≡ P.ordinal port.old }
{
    for _ in rt.forever() {
        let Some((stream, address)) = accept(rt, links, log, listener) else {
            break;
        };
        hear_connection(rt, alloc, links, log, stream, address, port);
    }
    wake(rt, &links.own);
}
