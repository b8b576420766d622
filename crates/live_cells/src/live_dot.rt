ghost use Rattle.std.specs.Prelude.{◌≡◌};
ghost use Rattle.std.specs.Ordering.{is_lt};
ghost use Rattle.live_cells.specs.Index.{listed_cmp, listing};
ghost use Rattle.live_cells.specs.LiveLists.{holding};
ghost use Rattle.live_cells.specs.Holdings.{cell_read};

use crate::Cell;
use dots::{Dot, Member};
use lww_registers::Fields;
use std::cmp::Ordering;

/// A live dot with its member and fields.
#[derive(Drop)]
pub struct LiveDot {
    /// The dot.
    pub dot: Dot,
    /// Its member.
    pub member: Member,
    /// Its fields.
    pub fields: Fields,
}

impl LiveDot {
    // Its member and fields, lent.
    pub(crate) fn lent(&self) -> Cell<'_>
        ensures { cell_read result ≡ holding self.now }
    {
        Cell {
            member: &self.member,
            fields: &self.fields,
        }
    }

    // Its order to another one in the index of members.
    pub(crate) fn order(&self, other: &LiveDot) -> Ordering
        ensures { result ≡ listed_cmp (listing self.now) (listing other.now) }
    {
        let by_member = self.member.cmp(&other.member);
        by_member.then(self.dot.cmp(&other.dot))
    }

    // Whether it precedes another one in the index of members.
    pub(crate) fn is_listed_before(&self, other: &LiveDot) -> bool
        ensures { result ≡ is_lt (listed_cmp (listing self.now) (listing other.now)) }
    {
        self.order(other).is_lt()
    }

    // Returns a copy.
    pub(crate) fn copy(&self) -> LiveDot
        ensures { result ≡ self.now }
    {
        LiveDot {
            dot: self.dot,
            member: self.member.copy(),
            fields: self.fields.copy(),
        }
    }
}
