use crate::Clients;
use std::alloc::Global;
use std::io::ErrorKind;
use std::net::{SocketAddr, TcpStream};
use std::sync::Wait;
use std::thread;
use std::time::{Clock, Duration};

// How long a thread waits after a failed accept, in milliseconds.
const PAUSE_MILLIS: u64 = 20;

// Waits for the next connection of a client, and returns it with the client's address. `None`: the site was stopped, which it finds when
// a connection comes, and drops that: `Clients::stop` makes one.
//
// Where the system fails to accept, as with too many open files, it logs that once a call, with the site's number, and tries again every
// 20 ms. It passes over a connection that the client has given up.
pub(crate) fn accept<R: Wait + Clock>(
    rt: &R,
    alloc: Global,
    clients: &Clients,
) -> Option<(TcpStream, SocketAddr)> {
    let mut is_logged = false;
    for _ in rt.forever() {
        let accepted = clients.listener.accept();
        if clients.is_stopped(rt) {
            drop(accepted);
            return None;
        }
        match accepted {
            Ok(connection) => return Some(connection),
            Err(error) if error.kind() == ErrorKind::ConnectionAborted => {}
            Err(error) => {
                if !is_logged {
                    let number = clients.number.number();
                    let line = format!(in alloc;
                        "queue_sites: site {number}: no connection: {error}"
                    );
                    clients.events.add(rt, line);
                    is_logged = true;
                }
                thread::sleep(rt, Duration::from_millis(PAUSE_MILLIS));
            }
        }
    }
    unreachable!()
}
