//! Serves one session of a new site from standard input: `session [--greeting=TEXT] [--tries=N] [--take=FRAME] PIECE USER SECRET
//! QUEUE..`.
//!
//! Standard input holds the client's bytes. The program reads it whole and gives it to the session in pieces of at most PIECE
//! bytes.
//!
//! - With an empty USER the session is trusted: it needs no Login.
//! - Without a greeting the session sends its default greeting.
//! - With `--tries=N` the session ends at its Nth refused Login.
//! - The site has the number 0 and the named queues, in that order. With `--take=FRAME`, in hexadecimal, it has taken that frame.
//!
//! The program writes the session's text to standard output, also when the session ends with a fault.
//!
//! | Status | How the session ended |
//! |---|---|
//! | 0 | it was served to its end |
//! | 10 | `Read`: the reader failed |
//! | 11 | `Write`: standard output failed |
//! | 12 | `LineTooLong`: a line has more than 1,024 bytes |
//! | 13 | `TooManyFields`: a message has more than 128 lines |
//! | 14 | `DeskDown`: the desk gave no answer |
//! | 15 | `Turns`: 1,000,000 reads gave no end |
//! | 16 | `Memory`: out of memory |
//!
//! With status 1 no session was served: reading standard input failed, or memory ran out. A case file without a command line gets
//! `1024`, two empty words and `sales`.
ghost use Rattle.std.specs.Prelude.{◌<◌};

use crate::queues::queue_list;
use ami_session::Session;
use ami_text::{MemorySource, StdSink};
use delta_codec::decode;
use dots::{SiteId, Text80};
use replica::Replica;
use serve::{NoWatch, ReplicaDesk, ServeFault, serve};
use std::alloc::Global;
use std::io;
use std::io::Read;

// If the first word begins with `front`: the rest of that word, and the other words. Otherwise all words.
fn optional<'a>(front: &str, words: &'a [String]) -> (Option<&'a str>, &'a [String]) {
    let [first, rest @ ..] = words else {
        return (None, words);
    };
    match first.strip_prefix(front) {
        Some(value) => (Some(value), rest),
        None => (None, words),
    }
}

// The session by the words of the command line. `None`: one is no text of a session, or no number.
fn session(
    greeting: Option<&str>,
    tries: Option<&str>,
    user: &str,
    secret: &str,
) -> Option<Session> {
    let session = if user.is_empty() {
        Session::trusted()
    } else {
        let user = Text80::new(user.as_bytes()).ok()?;
        let secret = Text80::new(secret.as_bytes()).ok()?;
        Session::new(user, secret)
    };
    let session = match tries {
        None => session,
        Some(tries) => session.with_tries(tries.parse().ok()?),
    };
    match greeting {
        None => Some(session),
        Some(greeting) => {
            let greeting = Text80::new(greeting.as_bytes()).ok()?;
            Some(session.with_greeting(greeting))
        }
    }
}

// Lets a site take the frame that these hexadecimal digits spell. Returns whether it took it.
fn has_taken(alloc: Global, replica: &mut Replica, digits: &str) -> bool {
    let Ok(bytes) = hex::decode(alloc, digits) else {
        return false;
    };
    let front = decode(alloc, &bytes);
    drop(bytes);
    match front {
        Ok((frame, _)) => replica.take(frame).err().is_none(),
        Err(_) => false,
    }
}

// Site 0 of these queues, after it has taken the given frame, if there is one. `None`: there is no such list of queues, the site does
// not take the frame, or memory ran out.
fn replica(alloc: Global, queues: &[String], frame: Option<&str>) -> Option<Replica> {
    let site = SiteId::new(0)?;
    let list = queue_list(alloc, queues)?;
    let mut replica = Replica::new(alloc, site, list);
    let Some(digits) = frame else {
        return Some(replica);
    };
    if has_taken(alloc, &mut replica, digits) {
        return Some(replica);
    }
    drop(replica);
    None
}

// Serves a session of a site, whose client sends these bytes in pieces of this length at most. Returns the exit status.
fn serve_stream<R: AllocGlobal + Print>(
    rt: &R,
    stream: &[u8],
    piece: usize,
    session: Session,
    replica: Replica,
) -> u8
    requires { 0 < piece }
{
    let alloc = rt.alloc();
    let mut reader = MemorySource::new(stream, piece);
    let mut writer = StdSink::new(io::writer(rt));
    let mut desk = ReplicaDesk::new(alloc, replica);
    let served = serve(
        rt,
        alloc,
        &mut reader,
        &mut writer,
        session,
        &mut desk,
        &mut NoWatch,
    );
    drop(desk);
    drop(writer);
    drop(reader);
    match served {
        Ok(()) => 0,
        Err(ServeFault::Read) => 10,
        Err(ServeFault::Write) => 11,
        Err(ServeFault::LineTooLong) => 12,
        Err(ServeFault::TooManyFields) => 13,
        Err(ServeFault::DeskDown) => 14,
        Err(ServeFault::Turns) => 15,
        Err(ServeFault::Memory) => 16,
    }
}

// Serves a session by these words, and returns the exit status. `None` if they are wrong.
pub(crate) fn run<R: AllocGlobal + Print + Input>(
    rt: &R,
    words: &[String],
) -> io::Result<Option<u8>> {
    let (greeting, words) = optional("--greeting=", words);
    let (tries, words) = optional("--tries=", words);
    let (frame, words) = optional("--take=", words);
    let [piece, user, secret, queues @ ..] = words else {
        return Ok(None);
    };
    let Ok(piece) = piece.parse::<usize>() else {
        return Ok(None);
    };
    if piece < 1 {
        return Ok(None);
    }
    let Some(session) = session(greeting, tries, user, secret) else {
        return Ok(None);
    };
    let mut stream = Vec::new(rt.alloc());
    if let Err(error) = rt.reader().read_to_end(&mut stream) {
        drop(stream);
        return Err(error);
    }
    let status = match replica(rt.alloc(), queues, frame) {
        Some(replica) => Some(serve_stream(rt, &stream, piece, session, replica)),
        None => {
            drop(session);
            None
        }
    };
    drop(stream);
    Ok(status)
}
