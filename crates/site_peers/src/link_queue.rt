//! What a link over TCP has to send: a beat every 0.95 seconds, and what waits for its peer.
use crate::clock::{millis, random};
use crate::peer_links::Peer;
use crate::{EndReason, ItemQueue, LinkLog, PeerLinks, Ring};
use dots::SiteId;
use link_stream::Item;
use std::random::RandomSource;
use std::sync::Wait;
use std::sync::atomic::Ordering;
use std::time::{Clock, Duration};

// The time between two beats, in milliseconds: less than a second, so that within one a beat shows that an item is missing.
const BEAT_MILLIS: u64 = 950;

// How many links are counted at most, for the time between wholes.
const MOST_LINKS: u64 = 64;

// What a link has to send: a beat every 0.95 seconds, and what waits for its peer. Each n/2 to 3n/2 seconds, where n, 2 to 64, is how many
// links of the site are up, it asks for a whole if frames of others were taken since it last did. At each beat it rings the bell while its
// peer wants a whole. It gives a beat at once if the peer's queue has it look at the connection.
#[derive(Drop)]
pub(crate) struct LinkQueue<'a, G: Drop> {
    links: &'a PeerLinks<G>,
    log: LinkLog<'a>,
    peer: &'a Peer,
    // When the next beat is due, and when a whole may be asked for.
    beat: u64,
    whole: u64,
    // How many frames of others had been taken when a whole was last asked for.
    taken: u64,
    // How often it had to look at the connection before the last beat.
    looks: u64,
    // Whether it is logged that memory is lacking for what waits.
    is_logged: bool,
}

impl<'a, G: Drop> LinkQueue<'a, G> {
    // The queue of a link that isn't up yet, to this peer.
    pub fn new(links: &'a PeerLinks<G>, log: LinkLog<'a>, peer: &'a Peer) -> LinkQueue<'a, G> {
        LinkQueue {
            links,
            log,
            peer,
            beat: 0,
            whole: 0,
            taken: 0,
            looks: 0,
            is_logged: false,
        }
    }

    // The link has fallen, after `begin`: nothing waits for the peer any more, and the link doesn't count as up.
    pub fn end<R: Wait>(&self, rt: &R) {
        self.links.up.fetch_sub(1, Ordering::SeqCst);
        self.peer.queue.close(rt);
    }
}

// Asks for a whole if it is time and frames of others were taken since it last did; then not again for n/2 to 3n/2 seconds. It doesn't
// ring.
fn ask_whole<R: Wait + RandomSource, G: Ring<R> + Drop>(
    rt: &R,
    queue: &mut LinkQueue<'_, G>,
    now: u64,
) {
    let taken = queue.links.taken.load(Ordering::SeqCst);
    if now < queue.whole || taken == queue.taken {
        return;
    }
    let links = queue.links.up.load(Ordering::SeqCst).max(2).min(MOST_LINKS);
    let wait = links * 500 + random(rt) % (links * 1_000 + 1);
    queue.taken = taken;
    queue.whole = now.saturating_add(wait);
    queue.peer.queue.ask_whole(rt);
}

// Rings the bell if a whole is to be made for the peer. That memory is lacking is logged once, and again only after it was not lacking.
fn ring_for_whole<R: Wait, G: Ring<R> + Drop>(rt: &R, queue: &mut LinkQueue<'_, G>) {
    let lacks_memory = queue.peer.queue.lacks_memory(rt);
    if lacks_memory && !queue.is_logged {
        queue.log.log_no_memory(rt, queue.peer.address.as_str());
    }
    queue.is_logged = lacks_memory;
    if queue.peer.queue.wants_whole(rt) {
        queue.links.bell.ring(rt);
    }
}

// The next item of a site that ends, without waiting: what has waited longest, if it was asked to end. `None` ends the link.
fn last_item<R: Wait + Clock, G: Drop>(
    rt: &R,
    queue: &mut LinkQueue<'_, G>,
    reason: EndReason,
) -> Option<Item> {
    if reason != EndReason::Asked {
        return None;
    }
    match queue
        .peer
        .queue
        .take_within(rt, Duration::ZERO, queue.looks)
    {
        Some(frame) => Some(Item::Frame(frame)),
        None => None,
    }
}

impl<'a, R: Wait + Clock + RandomSource, G: Ring<R> + Drop> ItemQueue<R> for LinkQueue<'a, G> {
    ghost use Rattle.std.specs.Prelude.{⊤};

    ghost begins = { λ old peer new. ⊤ };

    ghost gives = { λ old item new. ⊤ };

    ghost ends = { λ old new. ⊤ };

    // Notes the peer's number, logs that the link is up, opens the peer's queue, and rings the bell for the whole that is due then. From
    // now on the link counts as up. The frames of others that were taken are counted first, so that the link asks again for a whole if more
    // are taken. A beat is due at once, and a whole may be asked for with the next one, or with this one where the clock can't be read. No
    // contract says this.
    fn begin(&mut self, rt: &R, peer: SiteId) {
        self.peer
            .number
            .store(u64::from(peer.number()), Ordering::SeqCst);
        self.log.log_up(rt, peer, self.peer.address.as_str());
        self.taken = self.links.taken.load(Ordering::SeqCst);
        self.peer.queue.open(rt);
        self.links.up.fetch_add(1, Ordering::SeqCst);
        self.links.bell.ring(rt);
        self.beat = millis(rt).unwrap_or(0);
        self.whole = self.beat.saturating_add(BEAT_MILLIS);
        self.looks = self.peer.queue.looks();
    }

    // Waits for the next item: a beat if one is due, before which it asks for a whole and rings as the type says, else what has waited
    // longest. `None`: the site ends and sends nothing more, or the clock can't be read. No contract says what is returned.
    fn next_item(&mut self, rt: &R) -> Option<Item> {
        for _ in rt.forever() {
            if let Some(reason) = self.links.ending.reason(rt) {
                return last_item(rt, self, reason);
            }
            let now = millis(rt)?;
            let looks = self.peer.queue.looks();
            if now >= self.beat || looks != self.looks {
                self.looks = looks;
                self.beat = now.saturating_add(BEAT_MILLIS);
                ask_whole(rt, self, now);
                ring_for_whole(rt, self);
                return Some(Item::Beat);
            }
            let wait = Duration::from_millis(self.beat - now);
            if let Some(frame) = self.peer.queue.take_within(rt, wait, looks) {
                return Some(Item::Frame(frame));
            }
        }
        unreachable!()
    }
}
