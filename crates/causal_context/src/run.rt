ghost use Rattle.std.specs.Prelude.{◌≡◌};
ghost use Rattle.dots.specs.DotSets.{in_run, is_apart};
ghost use Rattle.causal_context.specs.Contexts.{IsRunWithinLimits};
ghost use Rattle.causal_context.specs.RunLists.{begins_by, holds, is_below, run_over};
ghost use Rattle.causal_context.specs.ListedRuns.{ends_apart};

use dots::SiteId;
use std::marker::Model;

/// A run: the counts of one site from a first to a last; those of a context are the longest. `1 <= first <= last <= 2^40`.
#[derive(Clone, Copy, Debug, PartialEq, Eq)]
pub struct Run {
    /// The site that made the adds.
    pub site: SiteId,

    /// The first of its counts.
    pub first: u64,

    /// The last of its counts.
    pub last: u64,
}

impl Model for Run {
    ghost use Rattle.dots.specs.DotSets.{Run};
    ghost use Rattle.causal_context.specs.Contexts.{IsRunWithinLimits};

    ghost Value = { Run };

    ghost view = { λ r. record { site = r.site; first = r.first; last = r.last } };

    ghost invariant = { λ r. IsRunWithinLimits (record { site = r.site; first = r.first; last = r.last }) };

    ghost inverse = { λ s. record { site = s.site; first = s.first; last = s.last } };
}

impl Run {
    // Whether the run has the dot of a site and a count.
    pub(crate) fn has(self, site: SiteId, count: u64) -> bool
        ensures { result ≡ in_run (record { site = site; count = count }) self }
    {
        self.site == site && self.first <= count && count <= self.last
    }

    // Whether another run is whole within it.
    pub(crate) fn holds(self, other: Run) -> bool
        ensures { result ≡ holds other self }
    {
        self.has(other.site, other.first) && other.last <= self.last
    }

    // Whether it ends before the dot of a site and a count.
    pub(crate) fn is_below(self, site: SiteId, count: u64) -> bool
        ensures { result ≡ is_below (record { site = site; count = count }) self }
    {
        self.site < site || self.site == site && self.last < count
    }

    // Whether it ends before another begins.
    pub(crate) fn precedes(self, other: Run) -> bool
        ensures { result ≡ is_below (record { site = other.site; count = other.first }) self }
    {
        self.is_below(other.site, other.first)
    }

    // Whether it begins before another, or where that begins.
    pub(crate) fn begins_by(self, other: Run) -> bool
        ensures { result ≡ begins_by self other }
    {
        self.site < other.site || self.site == other.site && self.first <= other.first
    }

    // Whether it lies before a run that begins at a dot of a site and a count: of a later site, or with a missing count between
    // them.
    pub(crate) fn ends_apart(self, site: SiteId, first: u64) -> bool
        ensures { result ≡ ends_apart (record { site = site; count = first }) self }
    {
        self.site < site || self.site == site && self.last + 1 < first
    }

    // Whether it lies before another, of a later site or with a missing count between them.
    pub(crate) fn is_before(self, other: Run) -> bool
        ensures { result ≡ is_apart self other }
    {
        self.ends_apart(other.site, other.first)
    }

    // This run with another of its site, and what lies between them.
    pub(crate) fn joined(self, other: Run) -> Run
        requires { self.site ≡ other.site }
        ensures value { result ≡ run_over self other }
        ensures limit { IsRunWithinLimits result }
    {
        Run {
            site: self.site,
            first: self.first.min(other.first),
            last: self.last.max(other.last),
        }
    }
}
