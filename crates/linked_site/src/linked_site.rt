//! What the threads of a linked site share.
ghost use Rattle.std.specs.Prelude.{◌≡◌, ℕ, IfOk, List};
ghost use Rattle.site_peers.specs.Links.{links_card, links_key};
ghost use Rattle.linked_site.specs.Cards.{card_of};

use crate::link_settings::random_name;
use crate::tasks::accepting_tasks;
use crate::{LinkSettings, LinkedSiteFault};
use dots::SiteId;
use link_hello::{Card, queues_digest};
use peer_box::BOX_BYTES;
use replica::QueueList;
use serving_clients::{ClientSettings, Clients};
use site_desk::SiteBell;
use site_peers::{EndReason, LinkLog, PeerLinks, Ring, end_links};
use std::alloc::Global;
use std::net::{Net, TcpListener, TcpStream};
use std::random::RandomSource;
use std::sync::Wait;
use std::sync::atomic::{AtomicU64, Ordering};
use std::thread;
use std::time::{Clock, Duration};

// The time between two wakes of threads that accept, in milliseconds.
const WAKE_MILLIS: u64 = 50;

// The bell of a linked site, and its clients, whose sessions end with it.
#[derive(Drop)]
pub(crate) struct SiteRing {
    pub bell: SiteBell,
    pub clients: Clients,
}

impl<R: Net<Listener = TcpListener, Stream = TcpStream> + Wait> Ring<R> for SiteRing {
    // Rings the site's bell; the clients go on.
    fn ring(&self, rt: &R) {
        self.bell.ring(rt);
    }

    // The connections of clients are shut down, and no further client is answered.
    fn end(&self, rt: &R) {
        self.clients.stop(rt);
        self.bell.end(rt);
    }
}

// What the threads of a linked site share, beside its desk.
#[derive(Drop)]
pub(crate) struct LinkedSite {
    pub links: PeerLinks<SiteRing>,
    // Where links are accepted.
    pub heard: TcpListener,
    // How many of its threads that accept clients or links have not ended.
    pub accepting: AtomicU64,
}

// The card of a site of this number, with these queues: the store and the start are those of its settings, and its process has this name.
fn card_of(site: SiteId, list: &QueueList, links: &LinkSettings, process: [u8; 16]) -> Card
    ensures { result ≡ card_of site list.now links.now process }
{
    Card {
        number: site.number() as u8,
        store: links.store,
        starts: links.starts,
        process,
        queues: queues_digest(list),
    }
}

impl LinkedSite {
    // What the threads of a site of this number share, which has these queues, and accepts clients and links at these listeners. It shows
    // its card in its hellos; 16 random bytes name its process. Errors, in order: `NoRandom`, `NoAddress`, `Memory`; all is dropped then.
    pub fn new<R: RandomSource>(
        rt: &R,
        alloc: Global,
        settings: &ClientSettings<'_>,
        links: LinkSettings,
        site: SiteId,
        list: &QueueList,
        clients: TcpListener,
        heard: TcpListener,
    ) -> Result<LinkedSite, LinkedSiteFault>
        ensures card { IfOk result (λ shared. (process : List ℕ)
            × (links_card shared.links ≡ card_of site list.now links process)) }
        ensures key { IfOk result (λ shared. links_key shared.links ≡ links.key) }
    {
        let process = match random_name(rt) {
            Ok(process) => process,
            Err(fault) => {
                drop(links);
                drop(clients);
                drop(heard);
                return Err(fault);
            }
        };
        let accepting = AtomicU64::new(accepting_tasks(settings.session.places, links.peers.len()));
        let own = match heard.local_addr() {
            Ok(own) => own,
            Err(error) => {
                drop(links);
                drop(clients);
                drop(heard);
                return Err(LinkedSiteFault::NoAddress(error));
            }
        };
        let Ok(clients) = Clients::new(alloc, site, clients, settings) else {
            drop(links);
            drop(heard);
            return Err(LinkedSiteFault::Memory);
        };
        let ring = SiteRing {
            bell: SiteBell::new(),
            clients,
        };
        let card = card_of(site, list, &links, process);
        let LinkSettings { key, peers, .. } = links;
        match PeerLinks::new(alloc, card, key, own, ring, peers, BOX_BYTES) {
            Ok(links) => Ok(LinkedSite {
                links,
                heard,
                accepting,
            }),
            Err(_) => {
                drop(heard);
                Err(LinkedSiteFault::Memory)
            }
        }
    }

    // Its clients.
    pub fn clients(&self) -> &Clients {
        &self.links.bell().clients
    }

    // The bell of the thread that makes its frames.
    pub fn bell(&self) -> &SiteBell {
        &self.links.bell().bell
    }

    // Notes that a thread has ended that accepts clients or links: each calls it once.
    pub fn end_accepting(&self) {
        let _ = self.accepting.fetch_sub(1, Ordering::SeqCst);
    }

    // Ends the site as `end` does, again each 50 ms until no thread accepts any more: a wake fails where no file is left.
    pub fn end_accepting_threads<R: Net<Listener = TcpListener, Stream = TcpStream> + Wait + Clock>(
        &self,
        rt: &R,
        alloc: Global,
    ) {
        let pause = Duration::from_millis(WAKE_MILLIS);
        for _ in rt.forever() {
            self.end(rt, alloc, EndReason::Asked);
            if self.accepting.load(Ordering::SeqCst) == 0 {
                return;
            }
            thread::sleep(rt, pause);
        }
    }

    // Where the events of its links are logged.
    pub fn log(&self, alloc: Global) -> LinkLog<'_> {
        let clients = self.clients();
        LinkLog::new(alloc, clients.events(), clients.number())
    }

    // Does as `end_links`: ends the site for this reason, if it doesn't end yet, logs the first reason, and wakes its threads. Its
    // clients are cut off.
    pub fn end<R: Net<Listener = TcpListener, Stream = TcpStream> + Wait>(
        &self,
        rt: &R,
        alloc: Global,
        reason: EndReason,
    ) {
        end_links(rt, &self.links, self.log(alloc), reason);
    }
}
