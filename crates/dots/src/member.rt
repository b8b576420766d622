ghost use Rattle.std.specs.Prelude.{◌≡◌};
ghost use Rattle.std.proofs.Common.{rules};
ghost use Rattle.std.specs.Cmp.{partial_order_from_own_ties};
ghost use Rattle.std.specs.Cmp.Rules.{comparing};
ghost use Rattle.std.specs.Ordering.{as_partial_cmp};
ghost use Rattle.dots.specs.Orders.{member_cmp};

use crate::Interface;
use std::cmp::Ordering;

/// A member of a queue: an interface in the queue of this number, which counts the names of the queue list
/// from 0. Members are ordered by queue, then by interface.
#[derive(Debug, Drop, PartialEq, Eq)]
pub struct Member {
    /// The number of the queue, from 0.
    pub queue: u16,
    /// The interface that is a member of the queue.
    pub interface: Interface,
}

impl Member {
    /// Returns a copy. Takes no memory.
    pub fn copy(&self) -> Member
        ensures { result ≡ self.now }
    {
        Member {
            queue: self.queue,
            interface: self.interface.copy(),
        }
    }
}

impl Ord for Member {
    ghost cmp = { member_cmp };

    ghost total = { Prim.search (comparing, rules) };

    ghost matches_partial_cmp = { Prim.search (comparing, rules) };

    ghost matches_eq = { Prim.search (comparing, rules) };

    fn cmp(&self, other: &Member) -> Ordering {
        self.queue
            .cmp(&other.queue)
            .then(self.interface.cmp(&other.interface))
    }
}

impl PartialOrd for Member {
    ghost partial_cmp = { as_partial_cmp member_cmp };

    ghost laws = { partial_order_from_own_ties (Prim.search (comparing, rules))
        (Prim.search (comparing, rules)) };

    fn partial_cmp(&self, other: &Member) -> Option<Ordering> {
        Some(self.cmp(other))
    }
}
