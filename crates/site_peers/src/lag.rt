ghost use Rattle.std.specs.Prelude.{◌≡◌, ◌+◌, ◌^◌, ◌-◌, false, min, true};
ghost use Rattle.site_peers.specs.Lags.{IsLagStep};

use std::marker::Model;

// How long a site that is behind waits before it asks once more, in milliseconds.
const ASK_MILLIS: u64 = 5_000;

/// What a site that is behind a peer does now (this project's own).
#[derive(Clone, Copy, PartialEq, Eq)]
pub enum LagStep {
    /// Nothing.
    Wait,
    /// It asks the peer for a whole.
    Ask,
    /// It notes that it has caught up.
    CaughtUp,
}

/// Whether a site is behind a peer, of which it has refused a frame because it had no room or no memory. Then it asks the peer for a whole,
/// at most each 5 seconds. It has caught up 5 seconds after it asked or later, if it has taken a frame since then and refused none. Times
/// are milliseconds since an arbitrary start.
#[derive(Drop)]
pub struct Lag {
    is_behind: bool,
    // Whether it has asked for a whole since it refused a frame, and taken a frame since it asked.
    has_asked: bool,
    has_taken: bool,
    // Before this time it does nothing.
    next: u64,
}

impl Model for Lag {
    ghost use Rattle.site_peers.specs.Lags.{LagState};

    ghost Value = { LagState };

    ghost view = { λ lag. record {
      behind = lag.is_behind;
      asked = lag.has_asked;
      taken = lag.has_taken;
      next = lag.next;
    } };
}

impl Lag {
    /// The lag of a link that begins at this time with a whole. `is_behind`: the site was behind the peer before.
    pub fn new(is_behind: bool, now: u64) -> Lag
        ensures { result ≡ record {
          behind = is_behind;
          asked = true;
          taken = false;
          next = min (now + 5_000) (2 ^ 64 - 1);
        } }
    {
        Lag {
            is_behind,
            has_asked: true,
            has_taken: false,
            next: now.saturating_add(ASK_MILLIS),
        }
    }

    /// A frame was refused.
    pub fn refuse(&mut self)
        ensures { self.new
            ≡ record self.old { behind = true; asked = false; taken = false } }
    {
        self.is_behind = true;
        self.has_asked = false;
        self.has_taken = false;
    }

    /// A frame was given to the site. `refuse` follows where the site refuses it.
    pub fn give(&mut self)
        ensures { self.new ≡ record self.old { taken = true } }
    {
        self.has_taken = true;
    }

    /// What the site does at this time. Where it asks, it waits for 5 seconds from then.
    pub fn step(&mut self, now: u64) -> LagStep
        ensures { IsLagStep self.old now result self.new }
    {
        if !self.is_behind || now < self.next {
            return LagStep::Wait;
        }
        if self.has_asked && self.has_taken {
            self.is_behind = false;
            return LagStep::CaughtUp;
        }
        self.has_asked = true;
        self.has_taken = false;
        self.next = now.saturating_add(ASK_MILLIS);
        LagStep::Ask
    }
}
