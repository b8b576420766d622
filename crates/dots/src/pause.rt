ghost use Rattle.std.specs.Prelude.{◌≡◌, true, false, []};
ghost use Rattle.dots.specs.Values.{IsText};

use crate::Text80;
use std::marker::Model;

/// Whether a member is paused, and the reason (Asterisk's QueuePause). A member that isn't paused has an
/// empty reason.
#[derive(Drop, PartialEq, Eq)]
pub struct Pause {
    paused: bool,
    reason: Text80,
}

impl Model for Pause {
    ghost use Rattle.std.specs.Prelude.{◌≡◌, false, []};
    ghost use Rattle.dots.specs.Values.{PauseState, IsText};

    ghost Value = { PauseState };

    ghost view = { λ p. record { paused = p.paused; reason = p.reason } };

    ghost invariant = { λ p. p.paused ≡ false → p.reason ≡ [] };

    ghost inverse = { λ s. record { paused = s.paused; reason = s.reason } };
}

impl Pause {
    /// If `paused`, a pause for this reason; otherwise no pause, and the reason is dropped.
    pub fn new(paused: bool, reason: Text80) -> Pause
        ensures paused { result.paused ≡ paused }
        ensures reason { paused ≡ true → result.reason ≡ reason }
        ensures dropped { paused ≡ false → result.reason ≡ [] }
    {
        if paused {
            Pause { paused, reason }
        } else {
            Pause {
                paused,
                reason: Text80::empty(),
            }
        }
    }

    /// Whether the member is paused.
    pub fn paused(&self) -> bool
        ensures { result ≡ self.now.paused }
    {
        self.paused
    }

    /// The reason of the pause; empty where the member isn't paused.
    pub fn reason(&self) -> &Text80
        ensures value { result.now ≡ self.now.reason }
        ensures limit { IsText result.now }
        ensures empty { self.now.paused ≡ false → result.now ≡ [] }
    {
        let _ = self.reason.as_bytes();
        &self.reason
    }

    /// Returns a copy. Takes no memory.
    pub fn copy(&self) -> Pause
        ensures { result ≡ self.now }
    {
        Pause {
            paused: self.paused,
            reason: self.reason.copy(),
        }
    }
}
