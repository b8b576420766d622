//! The lines that are logged of a client: each event is one line, with the client's address.
use ami_session::Session;
use dots::SiteId;
use event_log::EventLog;
use serve::{ServeFault, SessionWatch};
use std::alloc::Global;
use std::cell::Cell;
use std::net::SocketAddr;
use std::sync::Wait;
use std::{fmt, io};

// Why a client is given up: the time that it has not kept, or that none is known.
#[derive(Clone, Copy)]
pub(crate) enum Late {
    // It didn't log in.
    Login,
    // It sent nothing.
    Silent,
    // It read too little.
    Reading,
    // The clock can't be read.
    NoClock,
}

// A call that prepares a connection, which failed.
#[derive(Clone, Copy)]
pub(crate) struct NotPrepared {
    pub call: &'static str,
    pub error: io::Error,
}

// What happens to a client.
#[derive(Clone, Copy)]
pub(crate) enum ClientEvent {
    // It waits, since the site answers as many clients as it may.
    Waits,
    NotPrepared(NotPrepared),
    // There was no memory for its connection.
    NoMemory,
    LoggedIn,
    LoginFailed,
    // Its session ended with its last try to log in.
    TriesOver,
    Left,
    // It was given up. The number is the time that it has not kept, in seconds.
    GivenUp(Late, u64),
    // Its session ended by a fault. This number of commands followed the last one that was answered.
    Ended(ServeFault, u64),
}

impl fmt::Display for ClientEvent {
    // The event's words in a line of the log, behind the client's address. Fails only as the formatter does.
    fn fmt<W: fmt::Write>(&self, f: &mut fmt::Formatter<W>) -> fmt::Result {
        match *self {
            ClientEvent::Waits => write!(f, "waits for a place"),
            ClientEvent::NotPrepared(NotPrepared { call, error }) => {
                write!(f, "connection not prepared: {call}: {error}")
            }
            ClientEvent::NoMemory => write!(f, "connection not prepared: out of memory"),
            ClientEvent::LoggedIn => write!(f, "logged in"),
            ClientEvent::LoginFailed => write!(f, "login failed"),
            ClientEvent::TriesOver => write!(f, "closed after too many failed logins"),
            ClientEvent::Left => write!(f, "left"),
            ClientEvent::GivenUp(Late::Login, seconds) => {
                write!(f, "given up: no login within {seconds} s")
            }
            ClientEvent::GivenUp(Late::Silent, seconds) => {
                write!(f, "given up: silent for {seconds} s")
            }
            ClientEvent::GivenUp(Late::Reading, seconds) => {
                write!(f, "given up: less than 4096 bytes read in {seconds} s")
            }
            ClientEvent::GivenUp(Late::NoClock, _) => {
                write!(f, "given up: the clock can't be read")
            }
            ClientEvent::Ended(ServeFault::Memory, _) => {
                write!(
                    f,
                    "session ended: out of memory; its last command may have been done"
                )
            }
            ClientEvent::Ended(ServeFault::DeskDown, _) => {
                write!(
                    f,
                    "session ended: desk down; its last command may have been done"
                )
            }
            ClientEvent::Ended(fault, left) => {
                write!(
                    f,
                    "session ended: {fault}; {left} commands behind it were not done"
                )
            }
        }
    }
}

/// Where the events of a site's client are logged.
#[derive(Clone, Copy)]
pub struct ClientLog<'a> {
    events: &'a EventLog,
    alloc: Global,
    // The site's number.
    site: u16,
    peer: SocketAddr,
    is_verbose: bool,
}

impl<'a> ClientLog<'a> {
    /// The log of a client of this site, whose connection comes from this address. If `is_verbose`, it has also lines for each client that
    /// logs in, and for each of these that leaves.
    pub fn new(
        alloc: Global,
        events: &'a EventLog,
        site: SiteId,
        peer: SocketAddr,
        is_verbose: bool,
    ) -> ClientLog<'a> {
        ClientLog {
            events,
            alloc,
            site: site.number(),
            peer,
            is_verbose,
        }
    }

    // Logs an event, in one line with the site's number and the client's address.
    pub(crate) fn log<R: Wait>(&self, rt: &R, event: ClientEvent) {
        let (site, peer) = (self.site, self.peer);
        let line = format!(in self.alloc; "queue_sites: site {site}: client {peer}: {event}");
        self.events.add(rt, line);
    }

    // Logs an event that is logged only if the log is verbose.
    pub(crate) fn log_verbosely<R: Wait>(&self, rt: &R, event: ClientEvent) {
        if self.is_verbose {
            self.log(rt, event);
        }
    }
}

// What looks on at a client's session: it logs logins, and sets the cell that the client's source reads once the client has logged in.
#[derive(Drop)]
pub(crate) struct ClientWatch<'l, 'c> {
    log: ClientLog<'l>,
    is_logged_in: &'c Cell<bool>,
    tries: Option<u32>,
    // How many messages were answered.
    pub answered: u64,
}

impl<'l, 'c> ClientWatch<'l, 'c> {
    // A watch of a session that has this number of tries to log in.
    pub fn new(
        log: ClientLog<'l>,
        is_logged_in: &'c Cell<bool>,
        tries: Option<u32>,
    ) -> ClientWatch<'l, 'c> {
        ClientWatch {
            log,
            is_logged_in,
            tries,
            answered: 0,
        }
    }

    // Whether no try to log in is left.
    pub fn has_no_tries(&self) -> bool {
        self.tries == Some(0)
    }
}

impl<'l, 'c, R: Wait> SessionWatch<R> for ClientWatch<'l, 'c> {
    // Counts a message that was answered. If a try to log in was used up by it, logs that a login failed. Once the client has logged in,
    // sets the cell, and logs that if the log is verbose.
    fn after_message(&mut self, rt: &R, session: &Session) {
        self.answered = self.answered.saturating_add(1);
        let tries = session.tries();
        if tries != self.tries {
            self.tries = tries;
            self.log.log(rt, ClientEvent::LoginFailed);
        }
        if session.is_logged_in() && !self.is_logged_in.get() {
            self.is_logged_in.set(true);
            self.log.log_verbosely(rt, ClientEvent::LoggedIn);
        }
    }
}
