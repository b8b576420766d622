//! Two sites that are served over TCP: what their clients read, and what their journals show. tools/server_tests.py shows who is
//! disconnected, and why sites can't be served.
use crate::clients::{ADD, leave, logged_in, talk};
use crate::replies::{ADDED, REPORT};
use crate::shared::{events, list, text, whole_status};
use ami_text::MemorySink;
use server::{ServerSettings, SessionSettings, SiteOutput, serve_sites};
use serving_clients::PlaceCount;
use site_journal::Journaled;
use status_report::report;
use std::alloc::Global;
use std::net::{IpAddr, Ipv4Addr, Net, SocketAddr, TcpListener, TcpStream};
use std::process::Abort;
use std::sync::Wait;
use std::thread::{Threads, join};
use std::time::Clock;

const HERE: Ipv4Addr = Ipv4Addr::LOCALHOST;

// The first of a few ports at which two sites could be bound just now.
fn free_port<R: Net<Listener = TcpListener, Stream = TcpStream>>(rt: &R) -> u16 {
    let mut port = 24_300u16;
    for _ in 0..16u32 {
        let next = port.saturating_add(1);
        let own = TcpListener::bind(rt, SocketAddr::from((HERE, port)));
        let other = TcpListener::bind(rt, SocketAddr::from((HERE, next)));
        let are_free = own.is_ok() && other.is_ok();
        drop(own);
        drop(other);
        if are_free {
            return port;
        }
        port = next.saturating_add(1);
    }
    port
}

// Two sites at this port and the next one, of two places each, for the user `admin` with the secret `s3`.
fn settings(rt: &impl Abort, port: u16) -> ServerSettings {
    let mut session = SessionSettings::new(text(rt, "admin"), text(rt, "s3"));
    session.places = PlaceCount::new(2).expect(rt, "a number of places");
    match ServerSettings::new(2, IpAddr::V4(HERE), port, session) {
        Ok(settings) => settings,
        Err(_) => rt.panic("settings"),
    }
}

// What these sites end with after each has had two sessions.
fn ends_of<R>(rt: &R, alloc: Global, port: u16) -> Vec<SiteOutput<()>>
where
    R: Net<Listener = TcpListener, Stream = TcpStream> + Abort + Threads + Wait + Clock + Sync,
{
    let settings = settings(rt, port);
    let list = list(rt, alloc);
    let events = events(rt, alloc);
    let mut log = MemorySink::new(alloc, 700);
    let ended = serve_sites(rt, alloc, &settings, &list, Some(2), &mut log, &events);
    drop(events);
    drop(log);
    drop(list);
    drop(settings);
    ended.expect(rt, "ends")
}

// A client of the first site sees what another one has added that came after it, and has left. Two clients of the second site come
// and go.
fn act<R: Net<Listener = TcpListener, Stream = TcpStream> + Abort>(rt: &R, port: u16) {
    let first = SocketAddr::from((HERE, port));
    let seeing = logged_in(rt, first);
    let adding = logged_in(rt, first);
    talk(rt, &adding, ADD, ADDED);
    leave(rt, adding);
    talk(rt, &seeing, "Action: QueueStatus\r\n\r\n", REPORT);
    leave(rt, seeing);
    let second = SocketAddr::from((HERE, port.saturating_add(1)));
    leave(rt, logged_in(rt, second));
    leave(rt, logged_in(rt, second));
}

// The site of a journal shows the member that was added.
fn assert_shows(rt: &impl Abort, alloc: Global, journal: &Journaled) {
    let status = whole_status(alloc);
    let shown = report(alloc, journal.replica(), &status).expect(rt, "memory");
    drop(status);
    assert!(*rt; shown.as_slice() == REPORT.as_bytes());
    drop(shown);
}

#[test]
fn what_a_client_adds_another_sees_and_both_sites_show(rt: HostRuntime) {
    let alloc = rt.alloc();
    let lent = &rt;
    let port = free_port(lent);
    let (ends, _) = join(
        lent,
        move || ends_of(lent, alloc, port),
        move || act(lent, port),
    );
    assert!(*lent; ends.len() == 2);
    for end in &ends {
        assert_shows(lent, alloc, &end.journal);
    }
    drop(ends);
}
