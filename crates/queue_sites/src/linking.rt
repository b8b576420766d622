//! Serves one site that is linked to others.
use crate::failed;
use crate::storing::place_of;
use crate::system::System;
use ami_text::StdSink;
use command_line::{Exit, SiteAddresses, SiteRequest, StoreRequest};
use event_log::EventLog;
use site_files::SiteDatabase;
use site_service::{
    EndReason, LinkedRequest, Listeners, ServiceFault, serve_linked_file, serve_volatile,
};
use std::alloc::Global;
use std::io;
use std::net::TcpListener;
use std::sync::Arc;

// Listens at an address. `Err`: how the program ends, after the fault was printed.
fn listen_at<R: System>(rt: &R, address: &str) -> Result<TcpListener, io::Result<Exit>> {
    match TcpListener::bind(rt, address) {
        Ok(listener) => Ok(listener),
        Err(reason) => Err(refuse_address(rt, address, &reason)),
    }
}

// Prints why nobody can listen at an address. Returns `Failed`. `Err`: that printing failed.
fn refuse_address<R: Eprint>(rt: &R, address: &str, reason: &io::Error) -> io::Result<Exit> {
    eprintln!(rt; "queue_sites: cannot listen on {address}: {reason}")?;
    Ok(Exit::Failed)
}

// Listens for clients, then for links. `Err`: how the program ends, after the first fault was printed; then it listens nowhere.
fn listen<R: System>(rt: &R, addresses: &SiteAddresses) -> Result<Listeners, io::Result<Exit>> {
    let clients = listen_at(rt, addresses.clients.as_str())?;
    match listen_at(rt, addresses.links.as_str()) {
        Ok(links) => Ok(Listeners { clients, links }),
        Err(end) => {
            drop(clients);
            Err(end)
        }
    }
}

// Serves a site that stores nothing until it ends, and returns why. Errors are those of `serve_volatile`.
fn serve_in_memory<R: System>(
    rt: &R,
    request: &LinkedRequest<'_>,
    listeners: Listeners,
    events: &Arc<EventLog, Global>,
) -> Result<EndReason, ServiceFault> {
    let mut log = StdSink::new(io::writer(rt));
    serve_volatile(rt, rt.alloc(), request, listeners, None, &mut log, events)
}

// Serves a site over its store until it ends, and returns why. Errors are those of `serve_linked_file`.
fn serve_over_store<R: System>(
    rt: &R,
    host: &HostRuntime,
    request: &LinkedRequest<'_>,
    store: &StoreRequest,
    listeners: Listeners,
    events: &Arc<EventLog, Global>,
) -> Result<EndReason, ServiceFault> {
    let mut log = StdSink::new(io::writer(rt));
    let place = place_of(store);
    serve_linked_file::<_, SiteDatabase, _>(
        rt, host, request, place, listeners, None, &mut log, events,
    )
}

// Serves a site that listens, until it ends and the log has said why. Returns `Failed`; a fault before the site was served is printed.
// `Err`: that printing failed.
fn serve_listening<R: System>(
    rt: &R,
    host: &HostRuntime,
    request: &SiteRequest,
    listeners: Listeners,
    events: &Arc<EventLog, Global>,
) -> io::Result<Exit> {
    let linked = LinkedRequest {
        site: request.site,
        list: &request.list,
        session: &request.session,
        key: &request.key,
        peers: request.addresses.peers.as_slice(),
    };
    let end = match &request.store {
        None => serve_in_memory(rt, &linked, listeners, events),
        Some(store) => serve_over_store(rt, host, &linked, store, listeners, events),
    };
    match end {
        Ok(_) => Ok(Exit::Failed),
        Err(fault) => failed(rt, &fault),
    }
}

// Serves the site that is requested until it ends. It listens before it opens its store. Returns `Failed`, after a fault was printed or
// logged. `Err`: that printing failed.
pub(crate) fn serve<R: System>(
    rt: &R,
    host: &HostRuntime,
    request: &SiteRequest,
    events: &Arc<EventLog, Global>,
) -> io::Result<Exit> {
    match listen(rt, &request.addresses) {
        Ok(listeners) => serve_listening(rt, host, request, listeners, events),
        Err(end) => end,
    }
}
