//! How a stream is closed that has a last message for its peer.
use crate::clock::millis;
use std::io::Read;
use std::net::{Shutdown, TcpStream};
use std::sync::Wait;
use std::time::{Clock, Duration};

// How long reads after a link's end may take in all, and each of them, in milliseconds.
const LAST_MILLIS: u64 = 2_000;

const LAST_WAIT_MILLIS: u64 = 200;

// How many bytes are read at a time after a link's end.
const LAST_PIECE: usize = 4_096;

// Ends the writing side of a stream so that the peer can read all that was written: a stream that is closed over unread bytes discards what
// its peer has not read yet. So it reads and drops what the peer still sends, until the peer closes, sends nothing for 0.2 seconds, or 2
// seconds are over. The caller closes the stream. A failure ends this, and is ignored.
pub(crate) fn close_gently<R: Wait + Clock>(rt: &R, stream: &TcpStream) {
    if stream.shutdown(Shutdown::Write).is_err() {
        return;
    }
    let Some(begun) = millis(rt) else {
        return;
    };
    let over = begun.saturating_add(LAST_MILLIS);
    let mut reader = stream;
    let mut piece = [0u8; LAST_PIECE];
    for _ in rt.forever() {
        let Some(now) = millis(rt) else {
            return;
        };
        let wait = over.saturating_sub(now).min(LAST_WAIT_MILLIS);
        let wait = Duration::from_millis(wait);
        if stream.set_read_timeout(Some(wait)).is_err() {
            return;
        }
        match reader.read(&mut piece) {
            Ok(0) => return,
            Ok(_) => {}
            Err(_) => return,
        }
    }
}
