ghost use Rattle.std.specs.Prelude.{◌≡◌, ◌↔◌, IsTrue, None, Some};
ghost use Rattle.site_peers.specs.declared.ending.EndReason.{EndReason};

use std::sync::{Condvar, CondvarTimeouts, Mutex, Wait};
use std::time::{Clock, Duration};
use thiserror::Error;

/// Why a site ends (this project's own).
#[derive(Clone, Copy, Debug, PartialEq, Eq, Error)]
pub enum EndReason {
    /// It was asked to.
    #[error("asked to end")]
    Asked,
    /// Another site says of this site's number what this site has not made: the number was used before, or its store is an older copy.
    #[error("rolled back: another site has frames under this site's number that this site has not made")]
    NotMine,
    /// More sites than half as many as this site dials have other values under numbers of changes that it knows: numbers were used twice,
    /// as where a store was lost.
    #[error("other sites have other values under numbers of changes that this site knows")]
    Conflict,
    /// A peer knows another store with this site's number.
    #[error("the site number belongs to another store")]
    TakenNumber,
    /// A peer has seen a later start of this site's store.
    #[error("rolled back: the store is an older copy")]
    OlderCopy,
    /// A peer has seen this start of this site's store by another process: two copies of it were started, or an older one as often as the
    /// newer one, or its disk has lost a start.
    #[error("the store was copied: another process has this start of it")]
    SecondCopy,
    /// A commit of its store has failed.
    #[error("the store has failed")]
    StoreFailed,
}

// Gives a reason, if none was given before. Returns true if none was; else the earlier one stays.
fn give_first(reason: &mut Option<EndReason>, given: EndReason) -> bool
    ensures none { IsTrue result ↔ (reason.old ≡ None) }
    ensures first { reason.old ≡ None → reason.new ≡ Some given }
    ensures kept { (was : EndReason) → reason.old ≡ Some was → reason.new ≡ reason.old }
{
    let is_first = reason.is_none();
    if is_first {
        *reason = Some(given);
    }
    is_first
}

// Why a site ends, if it ends, and how often its dialers were hurried.
#[derive(Drop)]
struct State {
    reason: Option<EndReason>,
    hurries: u64,
}

/// Whether a site ends, and why: the first reason that a thread of it gave. All threads of its links look at it. Those that dial wait here
/// before they dial again, and are hurried when another site has dialed this one.
#[derive(Drop)]
pub struct Ending {
    state: Mutex<State>,
    changed: Condvar,
}

impl Ending {
    /// The ending of a site that doesn't end yet.
    pub fn new() -> Ending {
        Ending {
            state: Mutex::new(State {
                reason: None,
                hurries: 0,
            }),
            changed: Condvar::new(),
        }
    }

    /// Ends the site for this reason, if it doesn't end yet, and wakes the threads that wait here. Returns whether it didn't end before.
    pub fn end<R: Wait>(&self, rt: &R, reason: EndReason) -> bool {
        let mut held = self.state.lock(rt);
        let is_first = give_first(&mut held.reason, reason);
        drop(held);
        self.changed.notify_all();
        is_first
    }

    /// Why the site ends. `None`: it doesn't.
    pub fn reason<R: Wait>(&self, rt: &R) -> Option<EndReason> {
        self.state.lock(rt).reason
    }

    /// Wakes the threads that wait in `wait_unhurried`.
    pub fn hurry<R: Wait>(&self, rt: &R) {
        let mut held = self.state.lock(rt);
        held.hurries = held.hurries.wrapping_add(1);
        drop(held);
        self.changed.notify_all();
    }

    /// How often `hurry` was called.
    pub fn hurries<R: Wait>(&self, rt: &R) -> u64 {
        self.state.lock(rt).hurries
    }

    /// Waits for this time, or until the site ends. Returns whether it ends.
    pub fn wait_within<R: Wait + Clock>(&self, rt: &R, time: Duration) -> bool {
        let held = self.state.lock(rt);
        let (held, _) = self
            .changed
            .wait_timeout_while(rt, held, time, |state| state.reason.is_none());
        held.reason.is_some()
    }

    /// Waits for this time, or until the site ends, or until `hurry` was called after this number of hurries was read. Returns whether the
    /// site ends.
    pub fn wait_unhurried<R: Wait + Clock>(&self, rt: &R, time: Duration, hurries: u64) -> bool {
        let held = self.state.lock(rt);
        let (held, _) = self.changed.wait_timeout_while(rt, held, time, |state| {
            state.reason.is_none() && state.hurries == hurries
        });
        held.reason.is_some()
    }
}
