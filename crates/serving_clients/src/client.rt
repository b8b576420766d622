//! Serves a client of a site, from its connection to the end of its session.
ghost use Rattle.std.specs.Prelude.{◌≡◌, ◌⊎◌};
ghost use Rattle.serve.specs.Desks.{HasWorked};
ghost use Rattle.serving_clients.specs.ServedClients.{HasServed, session_of};

use crate::SessionSettings;
use crate::client_log::{ClientEvent, ClientLog, ClientWatch, Late, NotPrepared};
use crate::client_sink::ClientSink;
use crate::client_source::ClientSource;
use crate::deadlines::{shorter, time_left, write_wait};
use crate::message_count::MessageCount;
use crate::timed_read::TimedStream;
use serve::{Desk, ServeFault, serve};
use std::alloc::Global;
use std::cell::Cell;
use std::io::Read;
use std::net::{Shutdown, TcpStream};
use std::sync::Wait;
use std::time::{Clock, Duration, Instant};

// How many bytes are read at a time after a session's end.
const LAST_PIECE: usize = 4_096;

// How long these reads may take in all, and each of them, in milliseconds.
const LAST_MILLIS: u64 = 2_000;

const LAST_WAIT_MILLIS: u64 = 200;

// Into how many waits the time is divided in which a client may read too little.
const WRITE_WAITS: u32 = 100;

// Sets that what is written leaves at once, and how long a write waits, which is a hundredth of `write`. Error: the call that failed.
fn prepare_stream(stream: &TcpStream, write: Duration) -> Result<(), NotPrepared> {
    if let Err(error) = stream.set_nodelay(true) {
        return Err(NotPrepared {
            call: "set_nodelay",
            error,
        });
    }
    match stream.set_write_timeout(Some(write_wait(write, WRITE_WAITS))) {
        Ok(()) => Ok(()),
        Err(error) => Err(NotPrepared {
            call: "set_write_timeout",
            error,
        }),
    }
}

// Prepares a connection for its session, and returns the time at which that was done. Error: the first call that failed.
fn prepare<R: Clock>(
    rt: &R,
    stream: &TcpStream,
    settings: &SessionSettings,
) -> Result<Instant, NotPrepared> {
    prepare_stream(stream, settings.write)?;
    match Instant::now(rt) {
        Ok(now) => Ok(now),
        Err(error) => Err(NotPrepared {
            call: "clock_gettime",
            error,
        }),
    }
}

// Reads and drops what a client still sends, until it closes, and counts in `sent` the messages that it read. `None`: the client was silent
// for 0.2 seconds, 2 seconds were over, or the clock or the stream failed; what was read before is counted.
fn drain<R: Wait + Clock>(rt: &R, stream: &TcpStream, sent: &mut MessageCount) -> Option<()> {
    let begun = Instant::now(rt).ok()?;
    let mut reader = stream;
    let mut piece = [0u8; LAST_PIECE];
    for _ in rt.forever() {
        let passed = begun.elapsed(rt).ok()?;
        let left = time_left(Duration::from_millis(LAST_MILLIS), passed)?;
        let wait = shorter(left, Some(Duration::from_millis(LAST_WAIT_MILLIS)));
        stream.set_read_timeout(Some(wait)).ok()?;
        let count = reader.read(&mut piece).ok()?;
        if count == 0 {
            break;
        }
        *sent = sent.after(&piece, count);
    }
    Some(())
}

// Ends a stream so that the client can read all that was written. A stream that is closed over unread bytes discards what the client has
// not read yet, so these bytes are read first, as `drain` does. Returns how many messages were read in all, with those of `sent`.
fn close_gently<R: Wait + Clock>(rt: &R, stream: &TcpStream, sent: MessageCount) -> u64 {
    let mut sent = sent;
    if stream.shutdown(Shutdown::Write).is_ok() {
        let _ = drain(rt, stream, &mut sent);
    }
    sent.ended
}

// How a session has ended.
#[derive(Clone, Copy)]
struct SessionEnd {
    served: Result<(), ServeFault>,
    // Why the client is given up, if it is.
    late: Option<Late>,
    // What the client has sent, as far as it was read.
    sent: MessageCount,
    answered: u64,
    is_logged_in: bool,
    has_no_tries: bool,
}

// What is logged of the end of a session, where `left` messages followed the last one that was answered. `None`: nothing, since the session
// ended well or the connection broke.
fn event_of(end: SessionEnd, settings: &SessionSettings, left: u64) -> Option<ClientEvent> {
    match (end.served, end.late) {
        (Ok(()), _) if end.has_no_tries => Some(ClientEvent::TriesOver),
        (Ok(()), _) => None,
        (Err(_), Some(late)) => {
            let time = match late {
                Late::Login => settings.login,
                Late::Silent => settings.idle.unwrap_or(Duration::ZERO),
                Late::Reading => settings.write,
                Late::NoClock => Duration::ZERO,
            };
            Some(ClientEvent::GivenUp(late, time.as_secs()))
        }
        (Err(ServeFault::Read | ServeFault::Write), None) => None,
        (Err(fault), None) => Some(ClientEvent::Ended(fault, left)),
    }
}

// Ends a session's stream, and logs why the session ended (`event_of`); where that is nothing, and the log is verbose, it logs that a
// client left that had logged in. A client to which a write failed reads nothing, or is gone: its stream isn't ended here, nor is it waited
// for.
fn end_session<R: Wait + Clock>(
    rt: &R,
    log: &ClientLog<'_>,
    settings: &SessionSettings,
    stream: &TcpStream,
    end: SessionEnd,
) {
    let sent = match end.served {
        Err(ServeFault::Write) => end.sent.ended,
        _ => close_gently(rt, stream, end.sent),
    };
    match event_of(end, settings, sent.saturating_sub(end.answered)) {
        Some(event) => log.log(rt, event),
        None if end.is_logged_in => log.log_verbosely(rt, ClientEvent::Left),
        None => {}
    }
}

/// Serves a client of a site over a desk: a session of these settings, from its greeting to its end, and then the stream's end. Where the
/// connection can't be prepared there is no session, the desk stays as it is, and a line is logged.
///
/// It returns once the session has ended, in whichever way. It logs failed logins, sessions that ended with their last try to log in,
/// clients that have not kept a time or for which the clock can't be read, and sessions that ended by another fault than a broken
/// connection; if the log is verbose, logins and ends too. Unless a write has failed, the write side is then shut down, and what the client
/// still sends is read and dropped, so that it can read all replies: until it closes, is silent for 0.2 seconds, or 2 seconds are over
/// (sessions are Asterisk's Manager Interface; the times are this project's own).
pub fn answer_client<'x, R: Wait + Clock, D: Desk<R>>(
    rt: &'x R,
    alloc: Global,
    log: &ClientLog<'_>,
    settings: &SessionSettings,
    stream: &'x TcpStream,
    desk: &mut D,
)
    // There was no session, or there are bytes and a text by which it was served, or left by a fault.
    ensures session { (desk.new ≡ desk.old)
        ⊎ HasServed D.answers D.refuses (session_of settings.now) desk.old desk.new }

    // The desk has answered asks, and may have refused one more.
    ensures desk { HasWorked D.answers D.refuses desk.old desk.new }
{
    let connected = match prepare(rt, stream, settings) {
        Ok(connected) => connected,
        Err(fault) => {
            log.log(rt, ClientEvent::NotPrepared(fault));
            return;
        }
    };
    let is_logged_in = Cell::new(false);
    let timed = TimedStream::new(stream);
    let mut reader = ClientSource::new(rt, &timed, connected, settings, &is_logged_in);
    let mut writer = ClientSink::new(rt, stream, settings.write);
    let session = settings.session();
    let mut watch = ClientWatch::new(*log, &is_logged_in, session.tries());
    let served = serve(
        rt,
        alloc,
        &mut reader,
        &mut writer,
        session,
        desk,
        &mut watch,
    );
    let late = writer.late.or(reader.late);
    let end = SessionEnd {
        served,
        late,
        sent: reader.sent,
        answered: watch.answered,
        is_logged_in: is_logged_in.get(),
        has_no_tries: watch.has_no_tries(),
    };
    drop(reader);
    drop(writer);
    end_session(rt, log, settings, stream, end);
}
