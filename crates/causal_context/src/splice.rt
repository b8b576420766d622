ghost use Rattle.std.specs.Prelude.{◌≡◌, ◌+◌, ◌<◌, ◌≤◌, IsOk, OnErr, OnOk, [], ◌∷◌, length};
ghost use Rattle.std.specs.FinSet as set;
ghost use Rattle.dots.specs.DotSets.{IsRunsOf, run_count, set_of};
ghost use Rattle.causal_context.specs.ListedRuns.{TakesPlace, replaced};

use crate::Run;
use crate::run_list::RunList;
use dots::Memory;

// A run united with all that it touches, and the places of these: from `start` to before
// `end`.
#[derive(Clone, Copy)]
pub(crate) struct United {
    pub(crate) run: Run,
    pub(crate) start: usize,
    pub(crate) end: usize,
}

impl RunList {
    // A run united with all that it touches, and their places. The list stays.
    pub(crate) fn unite(&self, run: Run) -> United
        ensures place { TakesPlace self.now.items result.start result.run result.end }
        ensures united { IsRunsOf (replaced self.now.items result.start result.run result.end)
            (set.union (set_of self.now.items) (set_of (run ∷ []))) }
        ensures few { length (replaced self.now.items result.start result.run result.end)
            ≤ run_count (set_of self.now.items) + 1 }
    {
        let start = self.runs_before(run);
        let runs = self.as_slice();
        let mut united = run;
        let mut end = start;
        while end < runs.len() {
            let next = runs[end];
            if united.is_before(next) {
                return United {
                    run: united,
                    start,
                    end,
                };
            }
            united = united.joined(next);
            end += 1;
        }
        United {
            run: united,
            start,
            end,
        }
    }

    // The number of runs after one more, which is united with all that it touches.
    pub(crate) fn count_with(&self, run: Run) -> usize
        ensures value { result
            ≡ run_count (set.union (set_of self.now.items) (set_of (run ∷ []))) }
        ensures few { result ≤ run_count (set_of self.now.items) + 1 }
    {
        let United { run: _, start, end } = self.unite(run);
        let behind = self.len() - end;
        start + 1 + behind
    }

    // Replaces the runs that a run touches by that run, as `unite` returned it for this list. Fails
    // only when out of memory, and then changes nothing: never if it touches one, or there is room
    // for one more run.
    pub(crate) fn replace(&mut self, united: United) -> Result<(), Memory>
        requires { TakesPlace self.old.items united.start united.run united.end }
        ensures ok { OnOk result (self.new.items
            ≡ replaced self.old.items united.start united.run united.end) }
        ensures no_more { united.start < united.end → IsOk result }
        ensures with_room { run_count (set_of self.old.items) < self.old.room → IsOk result }
        ensures err { OnErr result (self.new.items ≡ self.old.items) }
        ensures room { self.old.room ≤ self.new.room }
    {
        let United { run, start, end } = united;
        if start < end {
            self.runs[start] = run;
            self.runs.drain(start + 1..end);
            return Ok(());
        }
        if self.runs.insert(start, run).is_err() {
            return Err(Memory);
        }
        Ok(())
    }

    // Unites the runs with one more in room that is there. Takes no memory.
    pub(crate) fn put(&mut self, run: Run)
        requires { run_count (set_of self.old.items) < self.old.room }
        ensures united { set_of self.new.items
            ≡ set.union (set_of self.old.items) (set_of (run ∷ [])) }
        ensures few { run_count (set_of self.new.items)
            ≤ run_count (set_of self.old.items) + 1 }
        ensures room { self.old.room ≤ self.new.room }
    {
        let united = self.unite(run);
        let _ = self.replace(united); // there is room, so it can't fail
    }
}
