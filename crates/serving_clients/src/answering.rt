//! The threads that answer the clients of a site, each one client after another.
ghost use Rattle.std.specs.Prelude.{◌≡◌};
ghost use Rattle.serve.specs.Desks.{HasWorked};
ghost use Rattle.serving_clients.specs.Answering.{HasAnsweredClients};

use crate::accepting::accept;
use crate::client_log::ClientEvent;
use crate::{ClientLog, Clients, answer_client};
use dots::Memory;
use serve::Desk;
use std::alloc::Global;
use std::net::{Net, TcpListener, TcpStream};
use std::sync::{Arc, Wait};
use std::time::Clock;

// Answers a client over this desk, but not at a site that was stopped. While it does, the connection is among those that a stop of the
// site shuts down. Out of memory it logs that, and answers nothing.
fn answer_one<R: Wait + Clock, D: Desk<R>>(
    rt: &R,
    alloc: Global,
    clients: &Clients,
    log: &ClientLog<'_>,
    stream: &Arc<TcpStream, Global>,
    desk: &mut D,
)
    ensures { HasWorked D.answers D.refuses desk.old desk.new }
{
    match clients.sessions.begin(rt, stream) {
        Ok(Some(number)) => {
            answer_client(rt, alloc, log, &clients.settings, &**stream, desk);
            clients.sessions.end(rt, number);
        }
        Ok(None) => {}
        Err(Memory) => log.log(rt, ClientEvent::NoMemory),
    }
}

// Answers the client of this connection over this desk, as `answer_one` does, once there is a place for it; if it must wait for one, it
// logs that. Then closes the connection and gives the place back. Out of memory it logs that, and answers nothing.
fn answer_at_a_place<R: Wait + Clock, D: Desk<R>>(
    rt: &R,
    alloc: Global,
    clients: &Clients,
    log: &ClientLog<'_>,
    stream: TcpStream,
    desk: &mut D,
)
    ensures { HasWorked D.answers D.refuses desk.old desk.new }
{
    let stream = match Arc::new(alloc, stream) {
        Ok(stream) => stream,
        Err(refused) => {
            drop(refused);
            log.log(rt, ClientEvent::NoMemory);
            return;
        }
    };
    if let Err(turn) = clients.places.try_take(rt) {
        log.log(rt, ClientEvent::Waits);
        clients.places.take_in_turn(rt, turn);
    }
    answer_one(rt, alloc, clients, log, &stream, desk);
    drop(stream);
    clients.places.leave(rt);
}

// Waits for the next client of a site, and answers it over this desk, but not at a site that was stopped.
fn answer_next<R: Wait + Clock, D: Desk<R>>(rt: &R, alloc: Global, clients: &Clients, desk: &mut D)
    ensures { HasWorked D.answers D.refuses desk.old desk.new }
{
    let Some((stream, peer)) = accept(rt, alloc, clients) else {
        return;
    };
    let is_verbose = clients.settings.is_verbose;
    let log = ClientLog::new(alloc, clients.events(), clients.number, peer, is_verbose);
    answer_at_a_place(rt, alloc, clients, &log, stream, desk);
}

/// Answers one client of a site after another over this desk, until the site takes no more, or was stopped. A client that comes while all
/// places are taken waits for its turn. At the end it wakes the next thread, if the site was stopped. Returns whether this was the last
/// thread of the site that answers.
pub fn answer_clients<
    R: Net<Listener = TcpListener, Stream = TcpStream> + Wait + Clock,
    D: Desk<R>,
>(rt: &R, alloc: Global, clients: &Clients, desk: &mut D) -> bool
    // The desk has worked for some clients.
    ensures { HasAnsweredClients D.answers D.refuses desk.old desk.new }
{
    for _ in rt.forever() {
        if clients.is_stopped(rt) || !clients.tickets.take(rt) {
            break;
        }
        answer_next(rt, alloc, clients, desk);
    }
    clients.end_one(rt)
}
