ghost use Rattle.std.specs.Prelude.{◌≡◌, IfOk, vec_len};
ghost use Rattle.site_peers.specs.Links.{links_card, links_key, peer_count};

use crate::heard_links::HeardLinks;
use crate::{EndReason, Ending, LinkLog, SharedOutbox, SharedQueue, SharedRoll};
use dots::{Memory, SiteId};
use link_hello::Card;
use link_keys::Key;
use std::alloc::Global;
use std::net::{Net, SocketAddr, TcpListener, TcpStream};
use std::sync::Wait;
use std::sync::atomic::{AtomicU64, Ordering};
use std::time::Duration;

// How long a connection to the site's own port may take, in milliseconds.
const WAKE_MILLIS: u64 = 200;

// No site has this number.
const NO_NUMBER: u64 = u64::MAX;

/// What wakes and ends the thread that makes a site's frames (this project's own).
pub trait Ring<R> {
    /// Wakes it.
    fn ring(&self, rt: &R);

    /// Ends it, and what else ends with the site. It may be called more than once.
    fn end(&self, rt: &R);
}

// A peer that is dialed.
#[derive(Drop)]
pub(crate) struct Peer {
    pub address: String,
    pub queue: SharedQueue,
    // Its number, once a link to it was up; before, `NO_NUMBER`.
    pub number: AtomicU64,
    // 1 if it is known to be the site itself, else 0.
    pub itself: AtomicU64,
}

/// What the threads of a site share for its links: who the site is, the peers that it dials, what waits for them, and whether it ends.
#[derive(Drop)]
pub struct PeerLinks<G: Drop> {
    pub(crate) card: Card,
    pub(crate) key: Key,
    // The address at which the site accepts links.
    pub(crate) own: SocketAddr,
    pub(crate) bell: G,
    pub(crate) roll: SharedRoll,
    pub(crate) ending: Ending,
    pub(crate) peers: Vec<Peer>,
    // How many frames of others were taken.
    pub(crate) taken: AtomicU64,
    // How many links that send are up.
    pub(crate) up: AtomicU64,
    // What is known of the links over which it takes frames.
    pub(crate) heard: HeardLinks,
}

// The peers of these addresses, in their order. At most `limit` bytes of frames wait for each. Error: `Memory`.
fn peers_of(alloc: Global, addresses: Vec<String>, limit: usize) -> Result<Vec<Peer>, Memory>
    ensures { IfOk result (λ peers. vec_len peers ≡ vec_len addresses) }
{
    let mut peers = Vec::new(alloc);
    for address in addresses {
        let peer = Peer {
            address,
            queue: SharedQueue::new(alloc, limit),
            number: AtomicU64::new(NO_NUMBER),
            itself: AtomicU64::new(0),
        };
        if peers.push(peer).is_err() {
            return Err(Memory);
        }
    }
    Ok(peers)
}

// The peers of these addresses, as `peers_of` makes them, and room for what is known of links. Error: `Memory`.
fn parts_of(
    alloc: Global,
    addresses: Vec<String>,
    limit: usize,
) -> Result<(Vec<Peer>, HeardLinks), Memory>
    ensures { IfOk result (λ (peers, _). vec_len peers ≡ vec_len addresses) }
{
    let heard = match HeardLinks::new(alloc) {
        Ok(heard) => heard,
        Err(_) => {
            drop(addresses);
            return Err(Memory);
        }
    };
    match peers_of(alloc, addresses, limit) {
        Ok(peers) => Ok((peers, heard)),
        Err(_) => {
            drop(heard);
            Err(Memory)
        }
    }
}

impl<G: Drop> PeerLinks<G> {
    /// What is shared by the threads of a site that accepts links at `own` and dials these addresses, each a host and a port. `card` is
    /// what it shows in its hellos, and `key` that of the secret. At most `limit` bytes of frames wait for each peer, beside a whole.
    /// Error: `Memory`; all is dropped then, the bell too.
    pub fn new(
        alloc: Global,
        card: Card,
        key: Key,
        own: SocketAddr,
        bell: G,
        addresses: Vec<String>,
        limit: usize,
    ) -> Result<PeerLinks<G>, Memory>
        ensures card { IfOk result (λ links. links_card links ≡ card) }
        ensures key { IfOk result (λ links. links_key links ≡ key) }
        ensures peers { IfOk result (λ links. peer_count links ≡ vec_len addresses) }
    {
        let (peers, heard) = match parts_of(alloc, addresses, limit) {
            Ok(parts) => parts,
            Err(_) => {
                drop(key);
                drop(bell);
                return Err(Memory);
            }
        };
        Ok(PeerLinks {
            card,
            key,
            own,
            bell,
            roll: SharedRoll::new(),
            ending: Ending::new(),
            peers,
            taken: AtomicU64::new(0),
            up: AtomicU64::new(0),
            heard,
        })
    }

    /// Whether it dials a peer of which it has taken no frame since the launch; the first frame of a link is a whole. A peer to which no
    /// link was up counts, since its number isn't known. One that has turned out to be the site itself doesn't.
    pub fn awaits_peers<R: Wait>(&self, rt: &R) -> bool {
        for peer in &self.peers {
            let is_other = peer.itself.load(Ordering::SeqCst) == 0;
            if is_other && !self.heard.has_taken(rt, peer.number.load(Ordering::SeqCst)) {
                return true;
            }
        }
        false
    }

    // Whether this site refused, as `Conflict`, the last frames of more sites than half as many as it dials, itself not counted.
    pub(crate) fn is_outvoted<R: Wait>(&self, rt: &R) -> bool {
        let mut others: usize = 0;
        for peer in &self.peers {
            if peer.itself.load(Ordering::SeqCst) == 0 {
                others = others.saturating_add(1);
            }
        }
        self.heard.disputes(rt).saturating_mul(2) > others
    }

    // A link of this site was heard: it may have been down, or started anew. The threads that wait to dial are hurried, and the one whose
    // link leads to this site looks at its connection.
    pub(crate) fn hurry_dialers<R: Wait>(&self, rt: &R, site: SiteId) {
        let number = u64::from(site.number());
        for peer in &self.peers {
            if peer.number.load(Ordering::SeqCst) == number {
                peer.queue.look(rt);
            }
        }
        self.ending.hurry(rt);
    }

    /// Whether the site ends, and why.
    pub fn ending(&self) -> &Ending {
        &self.ending
    }

    /// The bell of the thread that makes frames.
    pub fn bell(&self) -> &G {
        &self.bell
    }

    /// An outbox for each peer, in the order of their addresses. Error: `Memory`.
    pub fn outboxes(&self, alloc: Global) -> Result<Vec<SharedOutbox<'_>>, Memory>
        ensures { IfOk result (λ outboxes. vec_len outboxes ≡ peer_count self.now) }
    {
        let mut outboxes = Vec::new(alloc);
        for peer in &self.peers {
            if outboxes.push(SharedOutbox::new(&peer.queue)).is_err() {
                return Err(Memory);
            }
        }
        Ok(outboxes)
    }
}

// Wakes a thread that accepts links, by a connection to the site's own port, which may take 0.2 seconds. A failure is ignored.
pub(crate) fn wake<R: Net<Listener = TcpListener, Stream = TcpStream>>(rt: &R, own: &SocketAddr) {
    let wait = Duration::from_millis(WAKE_MILLIS);
    drop(TcpStream::connect_timeout(rt, own, wait));
}

/// Ends a site for this reason, if it doesn't end yet; the first reason is logged, in one line. Each call ends the bell, and wakes the
/// threads that wait to dial or to send, and one that accepts links, which wakes the next. So all threads of its links end, unless a wake
/// fails: then call it again.
pub fn end_links<R: Net<Listener = TcpListener, Stream = TcpStream> + Wait, G: Ring<R> + Drop>(
    rt: &R,
    links: &PeerLinks<G>,
    log: LinkLog<'_>,
    reason: EndReason,
) {
    if links.ending.end(rt, reason) {
        log.log_end(rt, reason);
    }
    links.bell.end(rt);
    for peer in &links.peers {
        peer.queue.look(rt);
    }
    wake(rt, &links.own);
}
