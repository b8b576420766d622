//! One site that is linked to others.
ghost use Rattle.std.specs.Prelude.{◌≡◌, ◌↔◌, IfErr, IfOk, IsErrOf, IsTrue, OnOk, false};
ghost use Rattle.std.specs.Prelude.{length, map, string_bytes, true, vec_len};
ghost use Rattle.std.specs.Io.KnownBytes.{Appends};
ghost use Rattle.std.specs.declared.net.socket_addr.SocketAddr.{SocketAddr};
ghost use Rattle.site_service.specs.Addresses.{address_lines};
ghost use Rattle.site_service.specs.Refusals.{IsRefusal};

use crate::addresses::write_addresses;
use crate::links::{links_of, links_without_store};
use crate::opening::start_site;
use crate::{EndReason, LinkedRequest, Listeners, ServiceFault, StorePath};
use ami_text::Sink;
use event_log::EventLog;
use linked_site::{LinkSettings, LinkedSiteFault, serve_linked_site, serve_stored_linked_site};
use serving_clients::ClientSettings;
use site_files::{SiteFile, StoreInFile};
use std::alloc::Global;
use std::net::{Net, TcpListener, TcpStream};
use std::random::RandomSource;
use std::sync::{Arc, Wait};
use std::thread::Threads;
use std::time::Clock;

// How the clients of a site are served: by the sessions of its request, for this number of connections, or any number.
fn clients_of<'a>(
    request: &LinkedRequest<'a>,
    sessions: Option<u32>,
    events: &'a Arc<EventLog, Global>,
) -> ClientSettings<'a>
    ensures session { result.session.now ≡ request.now.session.now }
    ensures connections { result.connections ≡ sessions }
{
    ClientSettings {
        session: request.session,
        connections: sessions,
        events,
    }
}

// The site whose store is this file, which is made if it is missing, and how it is linked. Errors, in order: those of `start_site`;
// `Memory`, and the store is closed.
fn linked_file<D: StoreInFile, R: Wait>(
    rt: &R,
    host: &HostRuntime,
    request: &LinkedRequest<'_>,
    place: StorePath<'_>,
    events: &EventLog,
) -> Result<(SiteFile<D>, LinkSettings), ServiceFault>
    ensures site { IfOk result (λ it. it.0.resumed.replica.site ≡ request.now.site) }
    ensures names { IfOk result (λ it.
        it.0.resumed.replica.names ≡ request.now.list.now) }
    ensures kept { IfOk result (λ it.
        IsTrue place.entry.keeps → D.keeps_rows it.0.resumed.store) }
    ensures key { IfOk result (λ it. it.1.key ≡ request.now.key.now) }
    // The site's card is that of its store.
    ensures store { IfOk result (λ it. it.1.store ≡ D.name it.0.resumed.store) }
    ensures starts { IfOk result (λ it. it.1.starts ≡ D.starts it.0.resumed.store) }
    ensures peers { IfOk result (λ it. vec_len it.1.peers ≡ length request.now.peers.now) }
    ensures texts { IfOk result (λ it.
        map string_bytes it.1.peers.items ≡ map string_bytes request.now.peers.now) }
    ensures fault { IfErr result IsRefusal }
{
    let file = match start_site(rt, host, place, request.site, request.list, events) {
        Ok(file) => file,
        Err(fault) => return Err(fault),
    };
    match links_of(host.alloc(), request, file.name, file.starts) {
        Ok(links) => Ok((file, links)),
        Err(_) => {
            drop(file);
            Err(ServiceFault::Memory)
        }
    }
}

// Serves the site of a file over its store until it ends, and returns why. The journal and the store are dropped. Errors are those of
// `serve_stored_linked_site`.
fn serve_file<
    R: Net<Listener = TcpListener, Stream = TcpStream>
        + Threads
        + Wait
        + Clock
        + RandomSource
        + Sync,
    D: StoreInFile + Send,
>(
    rt: &R,
    alloc: Global,
    settings: &ClientSettings<'_>,
    file: SiteFile<D>,
    links: LinkSettings,
    listeners: Listeners,
) -> Result<EndReason, LinkedSiteFault>
where
    D::Group: Send,
    D::Base: Send,
{
    let resumed = file.resumed;
    let Listeners {
        clients,
        links: heard,
    } = listeners;
    match serve_stored_linked_site::<R, D>(rt, alloc, settings, links, resumed, clients, heard) {
        Ok(end) => {
            let reason = end.reason;
            drop(end);
            Ok(reason)
        }
        Err(fault) => Err(fault),
    }
}

/// Serves one site over the store in the file `place` until it ends, as `serve_stored_linked_site` of `linked_site` does, and returns why
/// it has ended. The store is opened first; if its file is missing it is made. A new site's first start has a line in `events`. The log
/// then has two lines, as `listening clients 127.0.0.1:5038` and `listening links 127.0.0.1:7038`, and nothing more.
///
/// Errors, in order: 1 `Store`, with the path and the cause, and `Memory`; the log is as it was; 2 `Linked` with `NoAddress`, if the system
/// doesn't say where the site listens; 3 `Write`, if the log failed, or took no bytes; 4 `Linked`, with the errors of
/// `serve_stored_linked_site`. `Memory` may stand in place of 3.
pub fn serve_linked_file<
    R: Net<Listener = TcpListener, Stream = TcpStream>
        + Threads
        + Wait
        + Clock
        + RandomSource
        + Sync,
    D: StoreInFile + Send,
    W: Sink,
>(
    rt: &R,
    host: &HostRuntime,
    request: &LinkedRequest<'_>,
    place: StorePath<'_>,
    listeners: Listeners,
    sessions: Option<u32>,
    log: &mut W,
    events: &Arc<EventLog, Global>,
) -> Result<EndReason, ServiceFault>
where
    D::Group: Send,
    D::Base: Send,
    requires log { W.failed log.old ≡ false }
    ensures written { OnOk result ((clients : SocketAddr) × (links : SocketAddr)
        × Appends (W.taken log.old) (W.taken log.new) (address_lines clients links)) }
    ensures refused { IfErr result (λ fault. IsRefusal fault → log.new ≡ log.old) }
    ensures write { IsErrOf result ServiceFault.Write ↔ (W.failed log.new ≡ true) }
    ensures works { OnOk result (W.failed log.new ≡ false) }
{
    let (file, links) = match linked_file(rt, host, request, place, events) {
        Ok(site) => site,
        Err(fault) => {
            drop(listeners);
            return Err(fault);
        }
    };
    if let Err(fault) = write_addresses(host.alloc(), log, &listeners) {
        drop(listeners);
        drop(file);
        drop(links);
        return Err(fault);
    }
    let settings = clients_of(request, sessions, events);
    match serve_file::<R, D>(rt, host.alloc(), &settings, file, links, listeners) {
        Ok(reason) => Ok(reason),
        Err(fault) => Err(ServiceFault::Linked(fault)),
    }
}

// Serves a new site, which stores nothing, until it ends, and returns why. The journal is dropped. Errors are those of
// `serve_linked_site`.
fn serve_new<
    R: Net<Listener = TcpListener, Stream = TcpStream>
        + Threads
        + Wait
        + Clock
        + RandomSource
        + Sync,
>(
    rt: &R,
    alloc: Global,
    settings: &ClientSettings<'_>,
    request: &LinkedRequest<'_>,
    links: LinkSettings,
    listeners: Listeners,
) -> Result<EndReason, LinkedSiteFault> {
    let Listeners {
        clients,
        links: heard,
    } = listeners;
    let (site, list) = (request.site, request.list);
    match serve_linked_site(rt, alloc, settings, links, site, list, clients, heard) {
        Ok(end) => {
            let reason = end.reason;
            drop(end);
            Ok(reason)
        }
        Err(fault) => Err(fault),
    }
}

/// Serves one new site, which stores nothing, until it ends, as `serve_linked_site` of `linked_site` does, and returns why it has ended.
/// The log has the lines of `serve_linked_file`. The 16 bytes in place of a store's name are random.
///
/// Errors, in order: 1 `Linked` with `Memory` or `NoRandom`; the log is as it was; 2 `Linked` with `NoAddress`; 3 `Write`; 4 `Linked`, with
/// the errors of `serve_linked_site`. `Memory` may stand in place of 3.
pub fn serve_volatile<
    R: Net<Listener = TcpListener, Stream = TcpStream>
        + Threads
        + Wait
        + Clock
        + RandomSource
        + Sync,
    W: Sink,
>(
    rt: &R,
    alloc: Global,
    request: &LinkedRequest<'_>,
    listeners: Listeners,
    sessions: Option<u32>,
    log: &mut W,
    events: &Arc<EventLog, Global>,
) -> Result<EndReason, ServiceFault>
    requires log { W.failed log.old ≡ false }
    ensures written { OnOk result ((clients : SocketAddr) × (links : SocketAddr)
        × Appends (W.taken log.old) (W.taken log.new) (address_lines clients links)) }
    ensures refused { IfErr result (λ fault. IsRefusal fault → log.new ≡ log.old) }
    ensures write { IsErrOf result ServiceFault.Write ↔ (W.failed log.new ≡ true) }
    ensures works { OnOk result (W.failed log.new ≡ false) }
{
    let links = match links_without_store(rt, alloc, request) {
        Ok(links) => links,
        Err(fault) => {
            drop(listeners);
            return Err(ServiceFault::Linked(fault));
        }
    };
    if let Err(fault) = write_addresses(alloc, log, &listeners) {
        drop(listeners);
        drop(links);
        return Err(fault);
    }
    let settings = clients_of(request, sessions, events);
    match serve_new(rt, alloc, &settings, request, links, listeners) {
        Ok(reason) => Ok(reason),
        Err(fault) => Err(ServiceFault::Linked(fault)),
    }
}
