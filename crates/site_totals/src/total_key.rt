ghost use Rattle.std.specs.Prelude.{◌≡◌};
ghost use Rattle.std.proofs.Common.{rules};
ghost use Rattle.std.specs.Cmp.{partial_order_from_own_ties};
ghost use Rattle.std.specs.Cmp.Rules.{comparing};
ghost use Rattle.std.specs.Ordering.{as_partial_cmp};
ghost use Rattle.dots.specs.Values.{IsSite};
ghost use Rattle.operations.specs.Totals.{key_cmp};

use dots::SiteId;
use std::cmp::Ordering;
use std::marker::Model;

/// The key of a total: a site, and the number of a queue. Keys are ordered by site, then by queue.
#[derive(Clone, Copy, Debug, PartialEq, Eq)]
pub struct TotalKey {
    site: SiteId,
    queue: u16,
}

impl Model for TotalKey {
    ghost use Rattle.operations.specs.Totals.{Key};

    ghost Value = { Key };

    ghost view = { λ k. record { site = k.site; queue = k.queue } };

    ghost inverse = { λ k. record { site = k.site; queue = k.queue } };
}

impl TotalKey {
    /// The key of a site in a queue.
    pub fn new(site: SiteId, queue: u16) -> TotalKey
        ensures value { result ≡ record { site = site; queue = queue } }
        ensures limit { IsSite result.site }
    {
        let _ = site.number();
        TotalKey { site, queue }
    }

    /// The site.
    pub fn site(self) -> SiteId
        ensures value { result ≡ self.site }
        ensures limit { IsSite result }
    {
        let _ = self.site.number();
        self.site
    }

    /// The number of the queue.
    pub fn queue(self) -> u16
        ensures { result ≡ self.queue }
    {
        self.queue
    }
}

impl Ord for TotalKey {
    ghost cmp = { key_cmp };

    ghost total = { Prim.search (comparing, rules) };

    ghost matches_partial_cmp = { Prim.search (comparing, rules) };

    ghost matches_eq = { Prim.search (comparing, rules) };

    fn cmp(&self, other: &TotalKey) -> Ordering {
        self.site
            .cmp(&other.site)
            .then(self.queue.cmp(&other.queue))
    }
}

impl PartialOrd for TotalKey {
    ghost partial_cmp = { as_partial_cmp key_cmp };

    ghost laws = { partial_order_from_own_ties (Prim.search (comparing, rules))
        (Prim.search (comparing, rules)) };

    fn partial_cmp(&self, other: &TotalKey) -> Option<Ordering> {
        Some(self.cmp(other))
    }
}
