ghost use Rattle.std.specs.Prelude.{◌≡◌, ◌&&◌, nat_eq, nat_lt};
ghost use Rattle.std.proofs.Common.{rules};
ghost use Rattle.std.specs.Cmp.{partial_order_from_own_ties};
ghost use Rattle.std.specs.Cmp.Rules.{comparing};
ghost use Rattle.std.specs.Ordering.{as_partial_cmp};
ghost use Rattle.dots.specs.Values.{Dot};
ghost use Rattle.dots.specs.DotSets.{next_dot};
ghost use Rattle.operations.specs.Knowledge.{is_dot};
ghost use Rattle.dots.specs.Orders.{dot_cmp};

use dots::{Dot, SiteId};
use std::cmp::Ordering;
use std::marker::Model;

// A dot whose count has no limit, such as that of an add for which no count is left.
#[derive(Clone, Copy, PartialEq, Eq)]
pub(crate) struct PlainDot {
    site: u16,
    count: u64,
}

impl Model for PlainDot {
    ghost use Rattle.dots.specs.Values.{Dot};

    ghost Value = { Dot };

    ghost view = { λ d. record { site = d.site; count = d.count } };

    ghost inverse = { λ t. record { site = t.site; count = t.count } };
}

impl PlainDot {
    // The dot of a site and a count.
    pub(crate) fn new(site: SiteId, count: u64) -> PlainDot
        ensures { result ≡ record { site = site; count = count } }
    {
        PlainDot {
            site: site.number(),
            count,
        }
    }

    // The same dot without its limits.
    pub(crate) fn of(dot: Dot) -> PlainDot
        ensures { result ≡ dot }
    {
        PlainDot {
            site: dot.site().number(),
            count: dot.count(),
        }
    }

    // Whether the other dot follows this one: it is of the same site, with the next count.
    pub(crate) fn is_before(self, other: PlainDot) -> bool
        ensures { result ≡ is_dot (next_dot self) other }
    {
        self.site == other.site && self.count < other.count && other.count - self.count == 1
    }

    // Whether the other dot is older than this one: of the same site, with a lesser count.
    pub(crate) fn is_after(self, other: Dot) -> bool
        ensures { result ≡ (nat_eq self.site other.site && nat_lt other.count self.count) }
    {
        self.site == other.site().number() && other.count() < self.count
    }
}

impl Ord for PlainDot {
    ghost cmp = { dot_cmp };

    ghost total = { Prim.search (comparing, rules) };

    ghost matches_partial_cmp = { Prim.search (comparing, rules) };

    ghost matches_eq = { Prim.search (comparing, rules) };

    fn cmp(&self, other: &PlainDot) -> Ordering {
        self.site
            .cmp(&other.site)
            .then(self.count.cmp(&other.count))
    }
}

impl PartialOrd for PlainDot {
    ghost partial_cmp = { as_partial_cmp dot_cmp };

    ghost laws = { partial_order_from_own_ties (Prim.search (comparing, rules))
        (Prim.search (comparing, rules)) };

    fn partial_cmp(&self, other: &PlainDot) -> Option<Ordering> {
        Some(self.cmp(other))
    }
}
