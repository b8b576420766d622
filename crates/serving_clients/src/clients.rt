ghost use Rattle.std.specs.Prelude.{◌≡◌, ◌+◌, ◌≤◌, IfOk};
ghost use Rattle.serving_clients.specs.declared.place_count.TheConstants.{MOST_PLACES};

use crate::places::Places;
use crate::sessions::Sessions;
use crate::tickets::Tickets;
use crate::{PlaceCount, SessionSettings};
use dots::{Memory, SiteId};
use event_log::EventLog;
use std::alloc::Global;
use std::net::{Net, TcpListener, TcpStream};
use std::sync::{Arc, Wait};
use std::time::Duration;

// How long a connection to the site's own port may take, in milliseconds.
const WAKE_MILLIS: u64 = 200;

/// How the clients of a site are served (this project's own).
#[derive(Clone, Copy)]
pub struct ClientSettings<'a> {
    /// The settings of their sessions.
    pub session: &'a SessionSettings,
    /// How many connections the site takes. `None`: any number.
    pub connections: Option<u32>,
    /// Where it is logged what happens to clients.
    pub events: &'a Arc<EventLog, Global>,
}

/// The clients of a site: where they come in, how many are answered and how, and whether the site was stopped (this project's own).
#[derive(Drop)]
pub struct Clients {
    pub(crate) number: SiteId,
    pub(crate) listener: TcpListener,
    pub(crate) tickets: Tickets,
    pub(crate) places: Places,
    pub(crate) sessions: Sessions,
    pub(crate) settings: SessionSettings,
    pub(crate) events: Arc<EventLog, Global>,
}

/// How many threads answer the clients of a site that has this number of places. There is one more than places: it waits with the next
/// client.
pub fn answering_threads(places: PlaceCount) -> u32
    ensures number { result ≡ places + 1 }
    ensures limit { result ≤ MOST_PLACES + 1 }
{
    u32::from(places.get()) + 1
}

// Wakes a thread that waits for a client at this listener, by a connection to it, which may take 0.2 seconds. A failure is ignored.
fn wake<R: Net<Listener = TcpListener, Stream = TcpStream>>(rt: &R, listener: &TcpListener) {
    if let Ok(own) = listener.local_addr() {
        let wait = Duration::from_millis(WAKE_MILLIS);
        drop(TcpStream::connect_timeout(rt, &own, wait));
    }
}

impl Clients {
    ghost use Rattle.serving_clients.specs.Clients.{site_of};

    /// The clients of the site of this number, which come in at this listener. `settings.session.places` of them are answered at once, by
    /// one thread more, each of which calls `answer_clients` once. Error: `Memory`, and the listener is closed.
    pub fn new(
        alloc: Global,
        number: SiteId,
        listener: TcpListener,
        settings: &ClientSettings<'_>,
    ) -> Result<Clients, Memory>
        ensures { IfOk result (λ clients. site_of clients ≡ number) }
    {
        let Ok(events) = Arc::try_clone(settings.events) else {
            drop(listener);
            return Err(Memory);
        };
        let places = settings.session.places;
        Ok(Clients {
            number,
            listener,
            tickets: Tickets::new(settings.connections),
            places: Places::new(u32::from(places.get())),
            sessions: Sessions::new(alloc, answering_threads(places)),
            settings: settings.session.copy(),
            events,
        })
    }

    /// The number of the site.
    pub fn number(&self) -> SiteId
        ensures { result ≡ site_of self.now }
    {
        self.number
    }

    /// Where events of the site are logged.
    pub fn events(&self) -> &EventLog {
        &self.events
    }

    /// Stops the site: it answers no further client, the connections of clients are shut down, and a thread that waits for a client is
    /// woken; each thread that ends wakes the next. No reply leaves afterwards. It may take 0.2 seconds. Whoever finds that the site has
    /// failed calls it, perhaps again.
    pub fn stop<R: Net<Listener = TcpListener, Stream = TcpStream> + Wait>(&self, rt: &R) {
        self.sessions.stop(rt);
        wake(rt, &self.listener);
    }

    /// Whether the site was stopped.
    pub fn is_stopped<R: Wait>(&self, rt: &R) -> bool {
        self.sessions.is_stopped(rt)
    }

    // Ends a thread that answers clients: it wakes the next one, if the site was stopped. Returns whether it was the last.
    pub(crate) fn end_one<R: Net<Listener = TcpListener, Stream = TcpStream> + Wait>(
        &self,
        rt: &R,
    ) -> bool {
        let is_last = self.sessions.end_one(rt);
        if !is_last && self.sessions.is_stopped(rt) {
            wake(rt, &self.listener);
        }
        is_last
    }
}
