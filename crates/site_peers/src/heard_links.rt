//! What is known of the links over which a site takes frames, so that each change of it is logged once.
use crate::HearFault;
use dots::{Memory, SiteId};
use link_hello::HelloFault;
use std::alloc::Global;
use std::net::{IpAddr, SocketAddr};
use std::sync::{Mutex, Wait};

// How many sites there are.
const SITES: usize = 64;

// Of how many addresses it is known why their last connection led to no link.
const MOST_CAUSES: usize = 64;

// A peer that is heard, and the address that it connects from.
#[derive(Clone, Copy)]
pub(crate) struct HeardPeer {
    pub site: SiteId,
    pub address: SocketAddr,
}

// Why the last connection from an address led to no link.
#[derive(Clone, Copy)]
struct Cause {
    address: IpAddr,
    fault: HearFault,
}

// What is known of all links.
#[derive(Drop)]
struct Known {
    // The sites of which a frame was taken, and those that this site is behind, by their numbers.
    taken: [bool; SITES],
    behind: [bool; SITES],
    // The sites of which the last frame was refused as `Conflict`.
    disputed: [bool; SITES],
    // The oldest first.
    causes: Vec<Cause>,
}

// Sets what a list says of a site. Returns whether it said something else before.
fn set(sites: &mut [bool], site: SiteId, value: bool) -> bool {
    match sites.get_mut(site.number() as usize) {
        Some(slot) => {
            let was = *slot;
            *slot = value;
            was != value
        }
        None => false,
    }
}

// What is known of the links over which a site takes frames; its threads share it.
#[derive(Drop)]
pub(crate) struct HeardLinks {
    known: Mutex<Known>,
}

// Whether two causes are of one kind: two other versions are, whichever they are.
fn is_like(one: HearFault, other: HearFault) -> bool {
    match (one, other) {
        (
            HearFault::Hello(HelloFault::OtherVersion(_)),
            HearFault::Hello(HelloFault::OtherVersion(_)),
        ) => true,
        _ => one == other,
    }
}

impl HeardLinks {
    // Nothing is known; there is room for all causes. Error: `Memory`.
    pub fn new(alloc: Global) -> Result<HeardLinks, Memory> {
        let Ok(causes) = Vec::with_capacity(alloc, MOST_CAUSES) else {
            return Err(Memory);
        };
        Ok(HeardLinks {
            known: Mutex::new(Known {
                taken: [false; SITES],
                behind: [false; SITES],
                disputed: [false; SITES],
                causes,
            }),
        })
    }

    // Notes that a frame of this site was taken.
    pub fn note_taken<R: Wait>(&self, rt: &R, site: SiteId) {
        let mut known = self.known.lock(rt);
        set(&mut known.taken, site, true);
        set(&mut known.disputed, site, false);
    }

    // Notes that a frame of this site was refused as `Conflict`.
    pub fn note_disputed<R: Wait>(&self, rt: &R, site: SiteId) {
        set(&mut self.known.lock(rt).disputed, site, true);
    }

    // Of how many sites the last frame was refused as `Conflict`.
    pub fn disputes<R: Wait>(&self, rt: &R) -> usize {
        let known = self.known.lock(rt);
        let mut count: usize = 0;
        for is_disputed in known.disputed.iter() {
            if *is_disputed {
                count = count.saturating_add(1);
            }
        }
        count
    }

    // Whether a frame of the site of this number was taken.
    pub fn has_taken<R: Wait>(&self, rt: &R, number: u64) -> bool {
        match self.known.lock(rt).taken.get(number as usize) {
            Some(has_taken) => *has_taken,
            None => false,
        }
    }

    // Notes whether this site is behind that one. Returns whether that is news.
    pub fn set_behind<R: Wait>(&self, rt: &R, site: SiteId, is_behind: bool) -> bool {
        set(&mut self.known.lock(rt).behind, site, is_behind)
    }

    // Whether this site is behind that one.
    pub fn is_behind<R: Wait>(&self, rt: &R, site: SiteId) -> bool {
        match self.known.lock(rt).behind.get(site.number() as usize) {
            Some(is_behind) => *is_behind,
            None => false,
        }
    }

    // Notes why a connection from this address led to no link. Returns true if its last one had another cause, or none is known: causes are
    // kept of 64 addresses, and a further one takes the place of the one that was noted first.
    pub fn note_cause<R: Wait>(&self, rt: &R, address: IpAddr, fault: HearFault) -> bool {
        let mut known = self.known.lock(rt);
        for cause in known.causes.iter_mut() {
            if cause.address == address {
                let is_news = !is_like(cause.fault, fault);
                cause.fault = fault;
                return is_news;
            }
        }
        if known.causes.len() >= MOST_CAUSES {
            known.causes.remove(0);
        }
        let _ = known.causes.push(Cause { address, fault });
        true
    }

    // Forgets why connections from this address led to no link: one did.
    pub fn forget_cause<R: Wait>(&self, rt: &R, address: IpAddr) {
        self.known
            .lock(rt)
            .causes
            .retain(|cause| cause.address != address);
    }
}
