//! What the threads of one site with a store share.
use crate::site::Site;
use std::alloc::Global;
use std::sync::atomic::{AtomicBool, AtomicU64, Ordering};
use std::sync::{Arc, Wait};
use std::thread;
use std::time::{Clock, Duration};

// How long a site waits for frames of its peers at a time, in milliseconds, and how often.
const WAIT_MILLIS: u64 = 5;

const MOST_WAITS: u32 = 800;

// What the threads of a site with a store share, beside its desk.
#[derive(Drop)]
pub(crate) struct StoredSite {
    pub site: Site,
    // How many of its tasks have not ended, beside the one that saves.
    pub running: AtomicU64,
    // How many of its peers have not sent a frame yet that it has taken or refused.
    pub awaited: AtomicU64,
    // Whether a site of the server has failed, so that all its sites end.
    pub has_failed: Arc<AtomicBool, Global>,
}

impl StoredSite {
    // Notes that a task has ended: each calls it once, but the one that saves.
    pub fn end_task(&self) {
        let _ = self.running.fetch_sub(1, Ordering::SeqCst);
    }

    // Whether all its tasks have ended, beside the one that saves.
    pub fn has_ended(&self) -> bool {
        self.running.load(Ordering::SeqCst) == 0
    }

    // Waits until a frame of each peer was taken or refused, but no longer than 4 seconds, nor after a site of the server has failed.
    pub fn wait_for_peers<R: Wait + Clock>(&self, rt: &R) {
        for _ in 0..MOST_WAITS {
            if self.awaited.load(Ordering::SeqCst) == 0 || self.has_failed() {
                return;
            }
            thread::sleep(rt, Duration::from_millis(WAIT_MILLIS));
        }
    }

    // Notes that a site of the server has failed. Nothing wakes: each site finds it after its next save, and then ends.
    pub fn fail(&self) {
        self.has_failed.store(true, Ordering::SeqCst);
    }

    // Whether a site of the server has failed.
    pub fn has_failed(&self) -> bool {
        self.has_failed.load(Ordering::SeqCst)
    }
}
