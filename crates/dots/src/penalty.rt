ghost use Rattle.std.specs.Prelude.{◌≡◌, ◌↔◌, IsSome, IfSome};
ghost use Rattle.dots.specs.Values.{IsPenalty};

use crate::limits::MOST_PENALTY;
use std::marker::Model;

/// The penalty of a member in a queue, 0 to 2,147,483,647 (Asterisk's QueuePenalty): calls go to members of
/// the least penalty first.
#[derive(Clone, Copy, PartialEq, Eq)]
pub struct Penalty {
    number: u32,
}

impl Model for Penalty {
    ghost use Rattle.std.specs.Prelude.{ℕ};
    ghost use Rattle.dots.specs.Values.{IsPenalty};

    ghost Value = { ℕ };

    ghost view = { λ p. p.number };

    ghost invariant = { λ p. IsPenalty p.number };

    ghost inverse = { λ n. record { number = n } };
}

impl Penalty {
    /// The penalty of this number. `None` exactly where the number is above 2,147,483,647.
    pub fn new(number: u32) -> Option<Penalty>
        ensures within { IsSome result ↔ IsPenalty number }
        ensures value { IfSome result (λ penalty. penalty ≡ number) }
    {
        if number <= MOST_PENALTY {
            Some(Penalty { number })
        } else {
            None
        }
    }

    /// The number of this penalty, 0 to 2,147,483,647.
    pub fn get(self) -> u32
        ensures value { result ≡ self }
        ensures limit { IsPenalty result }
    {
        self.number
    }
}
