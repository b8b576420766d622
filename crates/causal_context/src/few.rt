//! Unites few runs with many: each of the few is searched for, and the many aren't walked. Both ways have the same
//! result; only the cost differs, so no contract says which runs are few.
ghost use Rattle.std.specs.Prelude.{◌≡◌, ◌+◌, ◌≤◌};
ghost use Rattle.std.specs.FinSet as set;
ghost use Rattle.dots.specs.DotSets.{run_count, set_of};

use crate::Run;
use crate::run_list::RunList;

// The greatest number of runs that count as few: to shift the runs after each of them costs less than to walk all.
const FEW_RUNS: usize = 16;

impl RunList {
    // Whether others are few, in number or relative to these, so that to search for each costs less than to walk all.
    pub(crate) fn are_few(&self, other: &RunList) -> bool {
        other.len() <= FEW_RUNS || other.len() <= self.len() / FEW_RUNS
    }

    // Whether a run is whole within one of these.
    fn has_whole(&self, run: Run) -> bool {
        match self.run_with(run.site, run.first) {
            Some(found) => run.last <= found.last,
            None => false,
        }
    }

    // How many of the others aren't whole within one of these.
    fn count_outside(&self, other: &RunList) -> usize {
        let mut outside = 0;
        for run in other.as_slice() {
            if !self.has_whole(*run) {
                outside += 1;
            }
        }
        outside
    }

    // Whether to search for each of the others instead of a walk: they are at most `FEW_RUNS`, or few relative to these
    // with at most `FEW_RUNS` that don't lie within these. A run that lies within shifts nothing.
    pub(crate) fn are_searched(&self, other: &RunList) -> bool {
        other.len() <= FEW_RUNS || self.are_few(other) && self.count_outside(other) <= FEW_RUNS
    }

    // The number of runs of the union with others. The others don't touch each other, so each changes the number as it
    // does alone.
    pub(crate) fn searched_count(&self, other: &RunList) -> usize
        ensures value { result
            ≡ run_count (set.union (set_of self.now.items) (set_of other.now.items)) }
        ensures few { result
            ≤ run_count (set_of self.now.items) + run_count (set_of other.now.items) }
    {
        let own = self.len();
        let mut count = own;
        let others = other.as_slice();
        for run in others {
            count = count + self.count_with(*run) - own;
        }
        count
    }

    // Unites them with others in room that is there. Takes no memory.
    pub(crate) fn absorb_searched(&mut self, other: &RunList)
        requires { run_count (set_of self.old.items) + run_count (set_of other.now.items)
            ≤ self.old.room }
        ensures united { set_of self.new.items
            ≡ set.union (set_of self.old.items) (set_of other.now.items) }
        ensures room { self.old.room ≤ self.new.room }
    {
        let others = other.as_slice();
        for run in others {
            self.put(*run);
        }
    }
}
