ghost use Rattle.std.specs.Prelude.{◌≡◌, ◌↔◌, IsSome, IfSome};
ghost use Rattle.std.proofs.Common.{rules};
ghost use Rattle.std.specs.Cmp.{partial_order_from_own_ties};
ghost use Rattle.std.specs.Cmp.Rules.{comparing};
ghost use Rattle.std.specs.Ordering.{as_partial_cmp};
ghost use Rattle.dots.specs.Values.{IsSite, IsCount};
ghost use Rattle.dots.specs.Orders.{stamp_cmp};

use crate::SiteId;
use crate::limits::MOST_COUNT;
use std::cmp::Ordering;
use std::marker::Model;

/// When a value was written: a time from 1 to 2^40, and the site that wrote it (RR-7506's timestamp of a
/// last-writer register). Stamps are ordered by time, then by site. A site's times rise, so no two
/// writes have one stamp.
#[derive(Clone, Copy, Debug, PartialEq, Eq)]
pub struct Stamp {
    time: u64,
    site: SiteId,
}

impl Model for Stamp {
    ghost use Rattle.dots.specs.Values.{Stamp, IsSite, IsCount};

    ghost Value = { Stamp };

    ghost view = { λ s. record { time = s.time; site = s.site } };

    ghost invariant = { λ s. IsSite s.site × IsCount s.time };

    ghost inverse = { λ t. record { time = t.time; site = t.site } };
}

impl Stamp {
    /// The stamp of a time and a site. `None` exactly where the time isn't from 1 to 2^40.
    pub fn new(time: u64, site: SiteId) -> Option<Stamp>
        ensures within { IsSome result ↔ IsCount time }
        ensures value { IfSome result (λ stamp. (stamp.time ≡ time) × (stamp.site ≡ site)) }
    {
        let _ = site.number();
        if time >= 1 && time <= MOST_COUNT {
            Some(Stamp { time, site })
        } else {
            None
        }
    }

    /// The time of the write, from 1 to 2^40.
    pub fn time(self) -> u64
        ensures value { result ≡ self.time }
        ensures limit { IsCount result }
    {
        self.time
    }

    /// The site that wrote the value.
    pub fn site(self) -> SiteId
        ensures value { result ≡ self.site }
        ensures limit { IsSite result }
    {
        self.site
    }
}

impl Ord for Stamp {
    ghost cmp = { stamp_cmp };

    ghost total = { Prim.search (comparing, rules) };

    ghost matches_partial_cmp = { Prim.search (comparing, rules) };

    ghost matches_eq = { Prim.search (comparing, rules) };

    fn cmp(&self, other: &Stamp) -> Ordering {
        self.time.cmp(&other.time).then(self.site.cmp(&other.site))
    }
}

impl PartialOrd for Stamp {
    ghost partial_cmp = { as_partial_cmp stamp_cmp };

    ghost laws = { partial_order_from_own_ties (Prim.search (comparing, rules))
        (Prim.search (comparing, rules)) };

    fn partial_cmp(&self, other: &Stamp) -> Option<Ordering> {
        Some(self.cmp(other))
    }
}
