//! Two sites in one process, each served by a call of its own, that are linked over TCP.
ghost use Rattle.std.specs.Prelude.{◌≡◌, vec_len};

use crate::clients::{ADD, leave, logged_in, talk};
use crate::replies::ADDED;
use crate::shared::{events, list, site, text};
use link_keys::Key;
use linked_site::{EndReason, LinkSettings, SiteEnd, serve_linked_site};
use serving_clients::{ClientSettings, SessionSettings};
use std::alloc::Global;
use std::io::Read;
use std::net::{Net, SocketAddr, TcpListener, TcpStream};
use std::process::Abort;
use std::random::RandomSource;
use std::sync::Wait;
use std::thread;
use std::thread::{Threads, join};
use std::time::{Clock, Duration};

const REMOVE: &str = "Action: QueueRemove\r\nQueue: sales\r\nInterface: SIP/1\r\n\r\n";

// How long a client waits between two removals, in milliseconds, and how often it asks for one.
const PAUSE_MILLIS: u64 = 50;

const ASKS: u32 = 200;

// A listener at a port of the system's choice, and its address.
fn listen<R: Abort + Net<Listener = TcpListener, Stream = TcpStream>>(
    rt: &R,
) -> (TcpListener, SocketAddr) {
    let listener = TcpListener::bind(rt, "127.0.0.1:0");
    let listener = listener.ok().expect(rt, "a port");
    let address = listener.local_addr().ok().expect(rt, "an address");
    (listener, address)
}

// How a site of this store is linked whose one peer accepts links at this address.
fn links(rt: &impl Abort, alloc: Global, store: u8, peer: SocketAddr) -> LinkSettings
    ensures { vec_len result.peers ≡ 1 }
{
    let mut peers = Vec::with_capacity(alloc, 1).expect(rt, "memory");
    peers.push_reserved(format!(in alloc; "{peer}").expect(rt, "memory"));
    LinkSettings {
        key: Key::of_secret(b"correct horse battery staple 123"),
        store: [store; 16],
        starts: 1,
        peers,
    }
}

// Serves a site at these listeners to one client. Returns why it has ended.
fn serve<R>(
    rt: &R,
    alloc: Global,
    number: u8,
    clients: TcpListener,
    heard: TcpListener,
    peer: SocketAddr,
) -> EndReason
where
    R: Net<Listener = TcpListener, Stream = TcpStream>
        + Abort
        + Threads
        + Wait
        + Clock
        + RandomSource
        + Sync,
{
    let session = SessionSettings::new(text(rt, "admin"), text(rt, "s3"));
    let events = events(rt, alloc);
    let settings = ClientSettings {
        session: &session,
        connections: Some(1),
        events: &events,
    };
    let list = list(rt, alloc);
    let served = serve_linked_site(
        rt,
        alloc,
        &settings,
        links(rt, alloc, number, peer),
        site(rt, u16::from(number)),
        &list,
        clients,
        heard,
    );
    drop(session);
    drop(events);
    drop(list);
    let SiteEnd { reason, journal } = served.ok().expect(rt, "an end");
    drop(journal);
    reason
}

// Asks for the removal of the member until its site knows it. Returns whether it was removed.
fn removes<R: Abort + Clock>(rt: &R, stream: &TcpStream) -> bool {
    let mut piece = [0u8; 5];
    for _ in 0..ASKS {
        talk(rt, stream, REMOVE, "Response: ");
        let mut reader = stream;
        assert!(*rt; reader.read_exact(&mut piece).is_ok());
        if piece.starts_with("Succe".as_bytes()) {
            let rest = "ss\r\nMessage: Removed interface from queue\r\n\r\n";
            talk(rt, stream, "", rest);
            return true;
        }
        let rest = "\r\nMessage: Unable to remove interface: Not there\r\n\r\n";
        talk(rt, stream, "", rest);
        thread::sleep(rt, Duration::from_millis(PAUSE_MILLIS));
    }
    false
}

// A client of the first site adds a member, which one of the second removes. Returns whether it was removed.
fn act<R: Abort + Clock + Net<Listener = TcpListener, Stream = TcpStream>>(
    rt: &R,
    first: SocketAddr,
    second: SocketAddr,
) -> bool {
    let other = logged_in(rt, second);
    let one = logged_in(rt, first);
    talk(rt, &one, ADD, ADDED);
    let is_removed = removes(rt, &other);
    leave(rt, one);
    leave(rt, other);
    is_removed
}

#[test]
fn what_a_client_adds_another_removes_at_a_linked_site(rt: HostRuntime) {
    let alloc = rt.alloc();
    let lent = &rt;
    let (clients, to_first) = listen(lent);
    let (heard, first_peer) = listen(lent);
    let (other_clients, to_second) = listen(lent);
    let (other_heard, second_peer) = listen(lent);
    let (one, (other, is_removed)) = join(
        lent,
        move || serve(lent, alloc, 1, clients, heard, second_peer),
        move || {
            join(
                lent,
                move || serve(lent, alloc, 2, other_clients, other_heard, first_peer),
                move || act(lent, to_first, to_second),
            )
        },
    );
    assert!(*lent; is_removed && one == EndReason::Asked && other == EndReason::Asked);
}
