ghost use Rattle.std.specs.Prelude.{◌≡◌, ◌≤◌, ◌↔◌, IsSome, IfSome};

use dots::MOST_CALLS;
use std::marker::Model;

/// How many calls of a kind a site has counted in a queue, 0 to 1,000,000,000 (this project's own limit).
#[derive(Clone, Copy, PartialEq, Eq)]
pub struct Total {
    number: u32,
}

impl Model for Total {
    ghost use Rattle.std.specs.Prelude.{ℕ, ◌≤◌};
    ghost use Rattle.dots.specs.declared.limits.TheConstants.{MOST_CALLS};

    ghost Value = { ℕ };

    ghost view = { λ t. t.number };

    ghost invariant = { λ t. t.number ≤ MOST_CALLS };

    ghost inverse = { λ n. record { number = n } };
}

impl Total {
    /// The total of this number. `None` exactly where the number is above 1,000,000,000.
    pub fn new(number: u32) -> Option<Total>
        ensures within { IsSome result ↔ (number ≤ MOST_CALLS) }
        ensures value { IfSome result (λ total. total ≡ number) }
    {
        if u64::from(number) <= MOST_CALLS {
            Some(Total { number })
        } else {
            None
        }
    }

    /// The number of calls of this total, 0 to 1,000,000,000.
    pub fn get(self) -> u32
        ensures value { result ≡ self }
        ensures limit { result ≤ MOST_CALLS }
    {
        self.number
    }
}
