ghost use Rattle.std.specs.Prelude.{◌≡◌};
ghost use Rattle.std.specs.FinSet as set;
ghost use Rattle.dots.specs.DotSets.{set_of};

use crate::run_list::RunList;

impl RunList {
    // Whether all dots of the other runs are of these: each of them is whole within one of these. Walks both lists once.
    pub(crate) fn covers(&self, other: &RunList) -> bool
        ensures { result ≡ set.is_subset (set_of other.now.items) (set_of self.now.items) }
    {
        let runs = self.as_slice();
        let wanted = other.as_slice();
        let mut index = 0;
        let mut found = 0;
        while found < wanted.len() {
            if index == runs.len() {
                return false;
            }
            let own = runs[index];
            let run = wanted[found];
            if own.precedes(run) {
                index += 1;
            } else if own.holds(run) {
                found += 1;
            } else {
                return false;
            }
        }
        true
    }
}
