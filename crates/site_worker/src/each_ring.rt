//! The bell of a pump that cuts once for each ring.
ghost use Rattle.std.specs.Prelude.{◌≡◌, false};

use dots::MOST_COUNT;
use site_desk::SiteBell;
use site_journal::Bell;
use std::marker::Model;
use std::sync::Wait;

/// The rings of a site's bell, each heard by itself (this project's own). To wait for the next one takes until the bell rings or ends.
#[derive(Drop)]
pub struct EachRing<'a> {
    bell: &'a SiteBell,
    heard: u64,
    has_ended: bool,
}

impl<'a> Model for EachRing<'a> {
    ghost use Rattle.std.specs.Prelude.{◌≤◌};
    ghost use Rattle.dots.specs.declared.limits.TheConstants.{MOST_COUNT};
    ghost use Rattle.site_worker.specs.Bells.{BellState};

    ghost Value = { BellState };

    ghost view = { λ bell. record { rings = bell.heard; ended = bell.has_ended } };

    ghost invariant = { λ bell. bell.heard ≤ MOST_COUNT };
}

impl<'a> EachRing<'a> {
    /// The rings of this bell, of which it has heard none.
    pub fn new(bell: &'a SiteBell) -> EachRing<'a>
        ensures rings { result.rings ≡ 0 }
        ensures ended { result.ended ≡ false }
    {
        EachRing {
            bell,
            heard: 0,
            has_ended: false,
        }
    }
}

impl<'a, R: Wait> Bell<R> for EachRing<'a> {
    ghost rings = { λ rings. rings.rings };

    ghost ended = { λ rings. rings.ended };

    /// Waits for a ring. `false`, and then at each call: the bell has ended and each ring was heard, or 2^40 were.
    fn wait(&mut self, rt: &R) -> bool {
        if self.has_ended || self.heard == MOST_COUNT || !self.bell.hear_one(rt) {
            self.has_ended = true;
            return false;
        }
        self.heard += 1;
        true
    }
}
