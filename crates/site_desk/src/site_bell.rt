//! The bell of a site: each change rings it, and the thread that sends hears it. Sites whose peers share it also ask by it for wholes.
ghost use Rattle.std.specs.Prelude.{◌≡◌, ◌<◌, ◌+◌, ◌-◌, ◌^◌, ◌↔◌, IsFalse, IsTrue, MatchBool, false, min, true};

use dots::SiteId;
use std::sync::{Condvar, CondvarTimeouts, Mutex, Wait};
use std::time::{Clock, Duration};

/// What a bell says to the one thread that hears it (this project's own).
#[derive(Clone, Copy)]
pub struct Heard {
    /// The bell has rung since that was last heard.
    pub has_rung: bool,
    /// The site has removed a member since that was last heard.
    pub has_room: bool,
    /// A peer that is behind this site has removed a member since that was last heard.
    pub is_hurried: bool,
    /// A peer is behind this site.
    pub is_behind: bool,
    /// The bell has ended.
    pub has_ended: bool,
}

// What a bell has to say, and which peers are behind its site: bit N stands for site N.
#[derive(Drop)]
struct Signals {
    // How many rings were not heard yet, 2^64 - 1 at most.
    rings: u64,
    has_room: bool,
    is_hurried: bool,
    behind: u64,
    has_ended: bool,
}

// The bit of a site: bit N for site N. No contract says this.
fn bit_of(site: SiteId) -> u64 {
    1 << site.number()
}

impl Signals {
    // The bell rings.
    fn ring(&mut self)
        ensures { self.new
            ≡ record self.old { rings = min (self.old.rings + 1) (2 ^ 64 - 1) } }
    {
        self.rings = self.rings.saturating_add(1);
    }

    // The bell rings, and the site has removed a member.
    fn ring_with_room(&mut self)
        ensures { self.new ≡ record self.old {
          rings = min (self.old.rings + 1) (2 ^ 64 - 1);
          has_room = true;
        } }
    {
        self.ring();
        self.has_room = true;
    }

    // The bell ends, and what was not heard yet stays.
    fn end(&mut self)
        ensures { self.new ≡ record self.old { has_ended = true } }
    {
        self.has_ended = true;
    }

    // A peer falls behind; no contract says which. That rings too, so that the thread that hears the bell from now on waits with a limit.
    fn fall_behind(&mut self, peer: SiteId)
        ensures { self.new.rings ≡ min (self.old.rings + 1) (2 ^ 64 - 1) }
    {
        self.behind |= bit_of(peer);
        self.ring();
    }

    // A peer has caught up; no contract says which.
    fn catch_up(&mut self, peer: SiteId)
        ensures { self.new.rings ≡ self.old.rings }
    {
        self.behind &= !bit_of(peer);
    }

    // A peer has removed a member, which is noted if it is behind. Returns whether it is.
    fn hurry(&mut self, peer: SiteId) -> bool
        ensures hurried { IsTrue result → self.new ≡ record self.old { is_hurried = true } }
        ensures same { IsFalse result → self.new ≡ self.old }
    {
        let is_behind = self.behind & bit_of(peer) != 0;
        if is_behind {
            self.is_hurried = true;
        }
        is_behind
    }

    // Whether there is nothing to hear yet.
    fn is_idle(&self) -> bool
        ensures { IsTrue result ↔ ((self.now.rings ≡ 0) × (self.now.is_hurried ≡ false)
            × (self.now.has_ended ≡ false)) }
    {
        self.rings == 0 && !self.is_hurried && !self.has_ended
    }

    // Hears what there is, all rings as one, and returns it; of room, hurry and peers behind no contract says that. Only the end, and which
    // peers are behind, stay.
    fn hear(&mut self) -> Heard
        ensures rung { IsTrue result.has_rung ↔ 0 < self.old.rings }
        ensures ended { result.has_ended ≡ self.old.has_ended }
        ensures left { self.new ≡ record self.old {
          rings = 0;
          has_room = false;
          is_hurried = false;
        } }
    {
        let heard = Heard {
            has_rung: self.rings > 0,
            has_room: self.has_room,
            is_hurried: self.is_hurried,
            is_behind: self.behind != 0,
            has_ended: self.has_ended,
        };
        self.rings = 0;
        self.has_room = false;
        self.is_hurried = false;
        heard
    }

    // Hears one ring, if there is one. Returns whether there was.
    fn hear_one(&mut self) -> bool
        ensures { MatchBool result (self.old ≡ record self.new { rings = self.new.rings + 1 })
            ((self.old.rings ≡ 0) × (self.new ≡ self.old)) }
    {
        if self.rings == 0 {
            return false;
        }
        self.rings -= 1;
        true
    }
}

/// The bell of a site, which many threads ring and one hears (this project's own): all rings that were not heard yet as one (`hear`), since
/// one cut sends the changes of all of them, or one by one (`hear_one`). Each other call waits for the bell's lock alone. No call
/// allocates. Contracts see nothing of the bell's state.
///
/// A peer that refused a frame of this site is *behind* it, until it has taken a frame of all that the site knows. The bell notes which
/// peers are.
#[derive(Drop)]
pub struct SiteBell {
    signals: Mutex<Signals>,
    changed: Condvar,
}

impl SiteBell {
    /// A bell that has not rung, of a site that no peer is behind.
    pub fn new() -> SiteBell {
        SiteBell {
            signals: Mutex::new(Signals {
                rings: 0,
                has_room: false,
                is_hurried: false,
                behind: 0,
                has_ended: false,
            }),
            changed: Condvar::new(),
        }
    }

    /// Rings, and wakes the thread that hears the bell.
    pub fn ring<R: Wait>(&self, rt: &R) {
        self.signals.lock(rt).ring();
        self.changed.notify_all();
    }

    /// Rings as `ring` does, and notes that the site has removed a member, so that a frame that it refused may fit.
    pub fn ring_with_room<R: Wait>(&self, rt: &R) {
        self.signals.lock(rt).ring_with_room();
        self.changed.notify_all();
    }

    /// Ends the bell, and wakes the thread that hears it. A ring before that is still heard.
    pub fn end<R: Wait>(&self, rt: &R) {
        self.signals.lock(rt).end();
        self.changed.notify_all();
    }

    /// Notes that the site `peer` has refused a frame of this site, and rings as `ring` does.
    pub fn fall_behind<R: Wait>(&self, rt: &R, peer: SiteId) {
        self.signals.lock(rt).fall_behind(peer);
        self.changed.notify_all();
    }

    /// Notes that the site `peer` has taken a frame of all that this site knows. Wakes no thread.
    pub fn catch_up<R: Wait>(&self, rt: &R, peer: SiteId) {
        self.signals.lock(rt).catch_up(peer);
    }

    /// Notes that the site `peer` has removed a member, and wakes the thread that hears, if that peer is behind this site; else does
    /// nothing.
    pub fn hurry<R: Wait>(&self, rt: &R, peer: SiteId) {
        let is_hurried = self.signals.lock(rt).hurry(peer);
        if is_hurried {
            self.changed.notify_all();
        }
    }

    /// Waits until there is a ring that was not heard, or the bell has ended. Hears that ring alone, and returns true. `false`: each ring
    /// was heard, and the bell has ended.
    pub fn hear_one<R: Wait>(&self, rt: &R) -> bool {
        let signals = self.signals.lock(rt);
        let mut signals = self.changed.wait_while(rt, signals, |signals| {
            signals.rings == 0 && !signals.has_ended
        });
        signals.hear_one()
    }

    /// Waits until the bell has rung, was hurried or has ended, and returns what it says; all of it but the end and the peers behind is
    /// then heard. With a `limit` it waits no longer than that, and may return with no ring.
    pub fn hear<R: Wait + Clock>(&self, rt: &R, limit: Option<Duration>) -> Heard {
        let signals = self.signals.lock(rt);
        match limit {
            None => {
                let mut signals = self
                    .changed
                    .wait_while(rt, signals, |signals| signals.is_idle());
                signals.hear()
            }
            Some(limit) => {
                let (mut signals, _) = self
                    .changed
                    .wait_timeout_while(rt, signals, limit, |signals| signals.is_idle());
                signals.hear()
            }
        }
    }
}
