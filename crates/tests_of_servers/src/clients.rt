//! A client over TCP: what it sends and what it must read. A client that reads anything else fails the test.
use crate::replies::{ACCEPTED, GOODBYE, GREETING};
use std::io::{Read, Write};
use std::net::{Net, SocketAddr, TcpListener, TcpStream};
use std::process::Abort;
use std::thread::yield_now;
use std::time::Duration;

// An add to `sales`.
pub(crate) const ADD: &str = "Action: QueueAdd\r\nQueue: sales\r\nInterface: SIP/1\r\n\r\n";

const LOGIN: &str = "Action: Login\r\nUsername: admin\r\nSecret: s3\r\n\r\n";

const LOGOFF: &str = "Action: Logoff\r\n\r\n";

// The most tries of a client to connect.
const TRIES: u32 = 1_000_000;

// How long a client waits for a reply, in seconds.
const PATIENCE: u64 = 20;

// Sends a text, and reads exactly another one.
pub(crate) fn talk(rt: &impl Abort, stream: &TcpStream, sent: &str, wanted: &str) {
    let mut writer = stream;
    assert!(*rt; writer.write_all(sent.as_bytes()).is_ok());
    let mut piece = [0u8; 1024];
    let count = wanted.len();
    assert!(*rt; count <= 1024);
    let mut reader = stream;
    assert!(*rt; reader.read_exact(&mut piece[..count]).is_ok());
    assert!(*rt; piece.starts_with(wanted.as_bytes()));
}

// A client that has logged in. It tries to connect until the server listens.
pub(crate) fn logged_in<R: Net<Listener = TcpListener, Stream = TcpStream> + Abort>(
    rt: &R,
    address: SocketAddr,
) -> TcpStream {
    for _ in 0..TRIES {
        if let Ok(stream) = TcpStream::connect(rt, address) {
            let patience = Some(Duration::from_secs(PATIENCE));
            assert!(*rt; stream.set_read_timeout(patience).is_ok());
            talk(rt, &stream, "", GREETING);
            talk(rt, &stream, LOGIN, ACCEPTED);
            return stream;
        }
        yield_now();
    }
    rt.panic("no connection")
}

// Logs off, and reads to the end.
pub(crate) fn leave(rt: &impl Abort, stream: TcpStream) {
    talk(rt, &stream, LOGOFF, GOODBYE);
    let mut piece = [0u8; 1];
    let mut reader = &stream;
    assert!(*rt; matches!(reader.read(&mut piece), Ok(0)));
    drop(stream);
}
