//! What the threads of one site share.
use dots::SiteId;
use serving_clients::Clients;
use site_desk::SiteBell;
use std::alloc::Global;
use std::sync::{Arc, Wait};

/// The number of steps that the journal of a served site holds at most.
pub const JOURNAL_STEPS: u32 = 1_000;

// What the threads of a site share, beside its desk.
#[derive(Drop)]
pub(crate) struct Site {
    pub number: SiteId,
    pub clients: Clients,
    pub bell: Arc<SiteBell, Global>,
    // The bells of all sites of the server, by their numbers.
    pub bells: Vec<Arc<SiteBell, Global>>,
}

impl Site {
    // The number of its peers: all other sites of the server.
    pub fn peers(&self) -> usize {
        self.bells.len().saturating_sub(1)
    }

    // Notes at the bell of a peer that this site is behind it, which rings that bell.
    // Nothing happens if there is no such peer.
    pub fn fall_behind<R: Wait>(&self, rt: &R, peer: SiteId) {
        if let Some(bell) = self.bells.get(usize::from(peer.number())) {
            bell.fall_behind(rt, self.number);
        }
    }

    // Notes at the site's own bell that a peer lacks frames, as a link was full. The
    // bell rings.
    pub fn lack_frames<R: Wait>(&self, rt: &R) {
        self.bell.fall_behind(rt, self.number);
    }

    // Notes at the site's own bell that no peer lacks frames any more. Nothing rings.
    pub fn lack_no_frames<R: Wait>(&self, rt: &R) {
        self.bell.catch_up(rt, self.number);
    }

    // Notes at the bell of a peer that this site has caught up with it. Nothing rings.
    pub fn catch_up<R: Wait>(&self, rt: &R, peer: SiteId) {
        if let Some(bell) = self.bells.get(usize::from(peer.number())) {
            bell.catch_up(rt, self.number);
        }
    }

    // Notes at the bells of its peers that this site has removed a member. A bell that
    // doesn't have this site as behind ignores it.
    pub fn hurry_peers<R: Wait>(&self, rt: &R) {
        let own = usize::from(self.number.number());
        for place in 0..self.bells.len() {
            if place != own {
                self.bells[place].hurry(rt, self.number);
            }
        }
    }
}
