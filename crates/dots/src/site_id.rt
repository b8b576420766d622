ghost use Rattle.std.specs.Prelude.{◌≡◌, ◌↔◌, IsSome, IfSome};
ghost use Rattle.dots.specs.Values.{IsSite};

use crate::limits::SITES;
use std::marker::Model;

/// The number of a site, 0 to 63 (RR-7506's replica). A site that starts anew takes a new number.
#[derive(Clone, Copy, Debug, PartialEq, Eq, PartialOrd, Ord)]
pub struct SiteId {
    number: u16,
}

impl Model for SiteId {
    ghost use Rattle.std.specs.Prelude.{ℕ};
    ghost use Rattle.dots.specs.Values.{IsSite};

    ghost Value = { ℕ };

    ghost view = { λ s. s.number };

    ghost invariant = { λ s. IsSite s.number };

    ghost inverse = { λ n. record { number = n } };
}

impl SiteId {
    /// The site of this number. `None` exactly where the number is 64 or more.
    pub fn new(number: u16) -> Option<SiteId>
        ensures within { IsSome result ↔ IsSite number }
        ensures value { IfSome result (λ site. site ≡ number) }
    {
        if number < SITES {
            Some(SiteId { number })
        } else {
            None
        }
    }

    /// The number of this site, 0 to 63.
    pub fn number(self) -> u16
        ensures value { result ≡ self }
        ensures limit { IsSite result }
    {
        self.number
    }
}
