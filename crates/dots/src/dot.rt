ghost use Rattle.std.specs.Prelude.{◌≡◌, ◌↔◌, IsSome, IfSome};
ghost use Rattle.std.proofs.Common.{rules};
ghost use Rattle.std.specs.Cmp.{partial_order_from_own_ties};
ghost use Rattle.std.specs.Cmp.Rules.{comparing};
ghost use Rattle.std.specs.Ordering.{as_partial_cmp};
ghost use Rattle.dots.specs.Values.{Dot, IsSite, IsCount};
ghost use Rattle.dots.specs.Orders.{dot_cmp};

use crate::SiteId;
use crate::limits::MOST_COUNT;
use std::cmp::Ordering;
use std::marker::Model;

/// The tag of one add: the site that made it, and which of that site's adds it is, from 1 to 2^40
/// (RR-8083: a unique tag is a replica and a counter). Dots are ordered by site, then by count.
#[derive(Clone, Copy, Debug, PartialEq, Eq)]
pub struct Dot {
    site: SiteId,
    count: u64,
}

impl Model for Dot {
    ghost use Rattle.dots.specs.Values.{Dot, IsSite, IsCount};

    ghost Value = { Dot };

    ghost view = { λ d. record { site = d.site; count = d.count } };

    ghost invariant = { λ d. IsSite d.site × IsCount d.count };

    ghost inverse = { λ t. record { site = t.site; count = t.count } };
}

impl Dot {
    /// The dot of a site and a count. `None` exactly where the count isn't from 1 to 2^40.
    pub fn new(site: SiteId, count: u64) -> Option<Dot>
        ensures within { IsSome result ↔ IsCount count }
        ensures value { IfSome result (λ dot. (dot.site ≡ site) × (dot.count ≡ count)) }
    {
        let _ = site.number();
        if count >= 1 && count <= MOST_COUNT {
            Some(Dot { site, count })
        } else {
            None
        }
    }

    /// The site that made the add of this dot.
    pub fn site(self) -> SiteId
        ensures value { result ≡ self.site }
        ensures limit { IsSite result }
    {
        self.site
    }

    /// Which of its site's adds the dot is of, from 1 to 2^40.
    pub fn count(self) -> u64
        ensures value { result ≡ self.count }
        ensures limit { IsCount result }
    {
        self.count
    }
}

impl Ord for Dot {
    ghost cmp = { dot_cmp };

    ghost total = { Prim.search (comparing, rules) };

    ghost matches_partial_cmp = { Prim.search (comparing, rules) };

    ghost matches_eq = { Prim.search (comparing, rules) };

    fn cmp(&self, other: &Dot) -> Ordering {
        self.site
            .cmp(&other.site)
            .then(self.count.cmp(&other.count))
    }
}

impl PartialOrd for Dot {
    ghost partial_cmp = { as_partial_cmp dot_cmp };

    ghost laws = { partial_order_from_own_ties (Prim.search (comparing, rules))
        (Prim.search (comparing, rules)) };

    fn partial_cmp(&self, other: &Dot) -> Option<Ordering> {
        Some(self.cmp(other))
    }
}
