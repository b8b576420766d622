//! Live dots in order, lent, each with the id of its cell.
ghost use Rattle.std.specs.Prelude.{◌≡◌, ◌≤◌, ◌<◌, ◌+◌, ◌^◌, length, true, false, filter, not};
ghost use Rattle.std.specs.List.{AllWithin, count_by};
ghost use Rattle.std.specs.FinSet as set;
ghost use Rattle.std.specs.Ordering.{is_lt};
ghost use Rattle.dots.specs.Orders.{dot_cmp};
ghost use Rattle.dots.specs.DotSets.{in_run, next_dot};
ghost use Rattle.live_cells.specs.PlacedLists.{AreRising, IsNextIn};

use crate::placed::Placed;
use causal_context::{Context, Run};
use dots::{Dot, SiteId};

/// Sorted live dots, each with the id of its cell. To search them takes no memory.
#[derive(Clone, Copy)]
pub struct PlacedDots<'a> {
    /// The dots from the least on, each with its id.
    pub list: &'a [Placed],
    ghost rise: { AreRising list.now },
}

// Whether a dot precedes that of a site and a count.
fn lies_before(placed: &Placed, site: SiteId, count: u64) -> bool
    ensures { result ≡ is_lt (dot_cmp placed.now.dot (record { site = site; count = count })) }
{
    let dot = placed.dot;
    dot.site() < site || dot.site() == site && dot.count() < count
}

// Whether a dot precedes that of a site and a count, or is it.
fn lies_upto(placed: &Placed, site: SiteId, count: u64) -> bool
    ensures { result
        ≡ is_lt (dot_cmp placed.now.dot (next_dot (record { site = site; count = count }))) }
{
    let dot = placed.dot;
    dot.site() < site || dot.site() == site && dot.count() <= count
}

impl<'a> PlacedDots<'a> {
    /// The number of dots before a dot. They are found by bisection.
    pub fn place(self, dot: Dot) -> usize
        ensures within { result ≤ length self.entry.list.now }
        ensures before { AllWithin (λ p. is_lt (dot_cmp p.dot dot) ≡ true) self.entry.list.now 0
            result }
        ensures after { AllWithin (λ p. is_lt (dot_cmp p.dot dot) ≡ false) self.entry.list.now
            result (length self.entry.list.now) }
    {
        self.list.partition_point(|placed| placed.dot < dot)
    }

    /// Whether the dot at a place precedes a dot; past the end it is false. If it is false, none from there on
    /// precedes that dot.
    pub fn is_passed(self, place: usize, dot: Dot) -> bool
        ensures within { result ≡ true → place < length self.entry.list.now }
        ensures limit { length self.entry.list.now < 2 ^ 64 }
        ensures here { result ≡ true
            → AllWithin (λ p. is_lt (dot_cmp p.dot dot) ≡ true) self.entry.list.now place
            (place + 1) }
        ensures none { result ≡ false
            → AllWithin (λ p. is_lt (dot_cmp p.dot dot) ≡ false) self.entry.list.now place
            (length self.entry.list.now) }
    {
        if place >= self.list.len() {
            return false;
        }
        self.list[place].dot < dot
    }

    // Whether a place is that of a dot: exactly the dots before it precede the dot. No contract says what
    // follows if it is false.
    fn is_place(self, place: usize, dot: Dot) -> bool
        ensures within { result ≡ true → place ≤ length self.entry.list.now }
        ensures before { result ≡ true
            → AllWithin (λ p. is_lt (dot_cmp p.dot dot) ≡ true) self.entry.list.now 0 place }
        ensures after { result ≡ true
            → AllWithin (λ p. is_lt (dot_cmp p.dot dot) ≡ false) self.entry.list.now place
            (length self.entry.list.now) }
    {
        if self.is_passed(place, dot) {
            return false;
        }
        if place == 0 {
            return true;
        }
        self.is_passed(place - 1, dot)
    }

    // The number of dots before a dot. A guess is tried first; if it is wrong, they are found by bisection.
    pub(crate) fn place_from(self, guess: usize, dot: Dot) -> usize
        ensures within { result ≤ length self.entry.list.now }
        ensures before { AllWithin (λ p. is_lt (dot_cmp p.dot dot) ≡ true) self.entry.list.now 0
            result }
        ensures after { AllWithin (λ p. is_lt (dot_cmp p.dot dot) ≡ false) self.entry.list.now
            result (length self.entry.list.now) }
    {
        if self.is_place(guess, dot) {
            return guess;
        }
        self.place(dot)
    }

    /// The dots of a run. They are found by bisection.
    pub fn dots_in(self, run: Run) -> &'a [Placed]
        ensures { result.now ≡ filter (λ p. in_run p.dot run) self.entry.list.now }
    {
        let (site, first, last) = (run.site, run.first, run.last);
        let start = self
            .list
            .partition_point(|placed| lies_before(placed, site, first));
        let end = self
            .list
            .partition_point(|placed| lies_upto(placed, site, last));
        &self.list[start..end]
    }

    /// The number of dots that aren't in a context. Those of each of its runs are found by bisection.
    pub fn count_outside(self, known: &Context) -> usize
        ensures { result
            ≡ count_by (λ p. not (set.contains known.now.dots p.dot)) self.entry.list.now }
    {
        let runs = known.as_slice();
        let mut left = self.list.len();
        for run in runs {
            left -= self.dots_in(*run).len();
        }
        left
    }

    /// The first dot of a run, if there is one. It is found by bisection.
    pub fn next_in(self, run: Run) -> Option<Dot>
        ensures { IsNextIn self.entry.list.now run.site run.first run.last result }
    {
        let (site, first, last) = (run.site, run.first, run.last);
        let from = Dot::new(site, first)?;
        let place = self.place(from);
        if place == self.list.len() {
            return None;
        }
        let dot = self.list[place].dot;
        if dot.site() != site {
            return None;
        }
        if dot.count() > last {
            return None;
        }
        Some(dot)
    }
}
