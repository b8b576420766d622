ghost use Rattle.std.specs.Prelude.{◌≡◌, ◌↔◌, ◌+◌, ◌*◌, ◌<◌, ◌≤◌, All, None, IsTrue, IsOk, IfOk};
ghost use Rattle.std.specs.Prelude.{OnOk, OnErr, IsErrOf};
ghost use Rattle.std.specs.FinMap as map;
ghost use Rattle.operations.specs.Totals.{InLimits, IsTotal, totals_of, sum_of, join_of, single};
ghost use Rattle.site_totals.specs.Tally.{HasRoomFor};
ghost use Rattle.site_totals.specs.Raising.{number_of, raised_totals};

use crate::joining::{absorb_rows, count_missing};
use crate::rows::{Row, join_one, raise_one, row_totals, row_totals_near, same_rows};
use crate::{CallTotals, Calls, Iter, Memory, TotalFault, TotalKey};
use dots::{MOST_CALLS, QUEUES, SITES, SiteId};
use std::alloc::Global;
use std::marker::Model;

/// The running totals of all sites: for each site and queue the numbers of completed and abandoned calls
/// (RR-7506's grow-only counter). A site without an entry in a queue has two zeros there.
#[derive(Drop)]
pub struct Totals {
    rows: Vec<Row>,
}

impl Model for Totals {
    ghost use Rattle.std.specs.Prelude.{◌-◌};
    ghost use Rattle.std.specs.Vec.{vec_capacity, vec_len};
    ghost use Rattle.site_totals.specs.Tally.{Tally, tally_code};
    ghost use Rattle.site_totals.specs.TotalLists.{IsKept, entries_of};

    ghost Value = { Tally };

    ghost coded = { tally_code };

    ghost view = { λ t. record {
      entries = entries_of t.rows.items;
      room = vec_capacity t.rows - vec_len t.rows;
    } };

    ghost invariant = { λ t. IsKept t.rows.items };
}

impl Totals {
    /// Nothing counted yet. Takes no memory.
    pub fn new(alloc: Global) -> Totals
        ensures { result.entries ≡ map.empty }
    {
        Totals {
            rows: Vec::new(alloc),
        }
    }

    /// The numbers of completed and abandoned calls of a site in a queue, each at most 1,000,000,000. Takes
    /// no memory.
    pub fn of(&self, site: SiteId, queue: u16) -> CallTotals
        ensures value { result ≡ totals_of self.now.entries site queue }
        ensures limit { (result.completed ≤ MOST_CALLS) × (result.abandoned ≤ MOST_CALLS) }
    {
        row_totals(&self.rows, TotalKey::new(site, queue))
    }

    /// The numbers of completed and abandoned calls of a queue at all sites together: the sums of their
    /// totals, each at most 64,000,000,000. Takes no memory.
    pub fn sum(&self, queue: u16) -> CallTotals
        ensures value { result ≡ sum_of self.now.entries queue }
        ensures limit { (result.completed ≤ SITES * MOST_CALLS)
            × (result.abandoned ≤ SITES * MOST_CALLS) }
    {
        let mut sum = CallTotals::none();
        let mut place = 0usize;
        let mut guess = 0usize;
        for number in 0..SITES {
            if let Some(site) = SiteId::new(number) {
                let (total, found) = self.of_near(site, queue, guess);
                sum.completed += total.completed;
                sum.abandoned += total.abandoned;
                // Where sites count in the same queues, the entries of a queue are equally far apart.
                guess = found.saturating_add(found.saturating_sub(place));
                place = found;
            }
        }
        sum
    }

    // The totals of a site in a queue, with the place of the entry. A guessed place is tried first. No
    // contract says which place is returned.
    fn of_near(&self, site: SiteId, queue: u16, guess: usize) -> (CallTotals, usize)
        ensures value { result.0 ≡ totals_of self.now.entries site queue }
        ensures limit { (result.0.completed ≤ MOST_CALLS) × (result.0.abandoned ≤ MOST_CALLS) }
    {
        row_totals_near(&self.rows, TotalKey::new(site, queue), guess)
    }

    /// The entries by site, then by queue, none of two zeros. Takes no memory.
    pub fn iter(&self) -> Iter<'_>
        ensures entries { result ≡ map.entries self.now.entries }
        ensures limits { All (λ entry. IsTotal entry.0 entry.1) (map.entries self.now.entries) }
        ensures within { InLimits self.now.entries }
    {
        Iter::new(&self.rows)
    }

    /// Whether nothing is counted yet. Takes no memory.
    pub fn is_empty(&self) -> bool
        ensures { IsTrue result ↔ (self.now.entries ≡ map.empty) }
    {
        self.rows.is_empty()
    }

    /// Whether both have the same entries. Takes no memory.
    pub fn same(&self, other: &Totals) -> bool
        ensures { IsTrue result ↔ (self.now.entries ≡ other.now.entries) }
    {
        same_rows(&self.rows, &other.rows)
    }

    /// Counts one more of these calls at a site in a queue, and returns the new total. Errors, in order, each
    /// of which changes nothing: `TotalFull` exactly where the total is 1,000,000,000; `Memory`, for a first
    /// entry without room.
    pub fn raise(&mut self, site: SiteId, queue: u16, calls: Calls) -> Result<u64, TotalFault>
        requires { queue < QUEUES }
        ensures value { IfOk result (λ total. total
            ≡ number_of calls (totals_of self.old.entries site queue) + 1) }
        ensures ok { OnOk result (self.new.entries
            ≡ raised_totals self.old.entries (record { site = site; queue = queue }) calls) }
        ensures full { (result ≡ Err TotalFault.TotalFull)
            ↔ (number_of calls (totals_of self.old.entries site queue) ≡ MOST_CALLS) }
        ensures memory { result ≡ Err TotalFault.Memory
            → (map.get self.old.entries (record { site = site; queue = queue }) ≡ None)
            × (self.old.room ≡ 0) }
        ensures err { OnErr result (self.new.entries ≡ self.old.entries) }
    {
        raise_one(&mut self.rows, TotalKey::new(site, queue), calls)
    }

    /// Joins one entry: each number becomes the greater of both, and two zeros are no entry. The queue's
    /// number is at most 255, and each of the totals at most 1,000,000,000. Fails only when out of memory for
    /// a new entry, and then changes nothing.
    pub fn reach(&mut self, site: SiteId, queue: u16, totals: CallTotals) -> Result<(), Memory>
        requires queue { queue < QUEUES }
        requires completed { totals.completed ≤ MOST_CALLS }
        requires abandoned { totals.abandoned ≤ MOST_CALLS }
        ensures ok { OnOk result (self.new.entries
            ≡ join_of self.old.entries (single (record { site = site; queue = queue }) totals)) }
        ensures err { OnErr result (self.new.entries ≡ self.old.entries) }
        ensures succeeds { HasRoomFor self.old
            (single (record { site = site; queue = queue }) totals)
            → IsOk result }
    {
        join_one(&mut self.rows, TotalKey::new(site, queue), totals)
    }

    /// Reserves room for every entry that only the others have, and changes no total. Fails only when out of
    /// memory, never if `prepared` is true.
    pub fn prepare(&mut self, other: &Totals) -> Result<(), Memory>
        ensures ok { OnOk result (HasRoomFor self.new other.now.entries) }
        ensures unchanged { self.new.entries ≡ self.old.entries }
        ensures room { self.old.room ≤ self.new.room }
        ensures succeeds { HasRoomFor self.old other.now.entries → IsOk result }
    {
        let missing = count_missing(&self.rows, &other.rows);
        self.rows.reserve(missing)
    }

    /// Whether there is room for every entry that only the others have, so that `absorb` can join them. Takes
    /// no memory.
    pub fn prepared(&self, other: &Totals) -> bool
        ensures { IsTrue result ↔ HasRoomFor self.now other.now.entries }
    {
        count_missing(&self.rows, &other.rows) <= self.rows.capacity() - self.rows.len()
    }

    /// Joins the others: each number becomes the greater of both. There is room for them (`prepared`), so it
    /// takes no memory and can't fail.
    pub fn absorb(&mut self, other: &Totals)
        requires { HasRoomFor self.old other.now.entries }
        ensures { self.new.entries ≡ join_of self.old.entries other.now.entries }
    {
        absorb_rows(&mut self.rows, &other.rows);
    }

    /// Joins the others: each number becomes the greater of both. Fails only when out of memory, and then
    /// changes no total; never if `prepared` is true.
    pub fn join(&mut self, other: &Totals) -> Result<(), Memory>
        ensures ok { OnOk result (self.new.entries ≡ join_of self.old.entries other.now.entries) }
        ensures err { OnErr result (self.new.entries ≡ self.old.entries) }
        ensures succeeds { HasRoomFor self.old other.now.entries → IsOk result }
    {
        self.prepare(other)?;
        self.absorb(other);
        Ok(())
    }

    /// Returns a copy. Fails only when out of memory.
    pub fn copy(&self) -> Result<Totals, Memory>
        ensures { IfOk result (λ copy. copy.entries ≡ self.now.entries) }
    {
        let rows = self.rows.clone()?;
        Ok(Totals { rows })
    }
}
