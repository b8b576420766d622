//! Two lists of runs united by a walk over both.
ghost use Rattle.std.specs.Prelude.{◌≡◌, ◌+◌, ◌≤◌, MatchOption, length, take, drop};
ghost use Rattle.std.specs.FinSet as set;
ghost use Rattle.std.specs.List.{All};
ghost use Rattle.dots.specs.DotSets.{IsRunsOf, run_count, set_of};
ghost use Rattle.causal_context.specs.Contexts.{IsRunWithinLimits};
ghost use Rattle.causal_context.specs.ListedRuns.{ArePlaces, IsAtEnd, IsFirstOf};

use crate::Run;
use crate::run_list::RunList;

impl RunList {
    // The number of runs of the union with others. Searches for each of the others if they are few (`are_few`); else walks both
    // once.
    pub(crate) fn united_count(&self, other: &RunList) -> usize
        ensures value { result
            ≡ run_count (set.union (set_of self.now.items) (set_of other.now.items)) }
        ensures few { result
            ≤ run_count (set_of self.now.items) + run_count (set_of other.now.items) }
    {
        if self.are_few(other) {
            return self.searched_count(other);
        }
        self.walked_count(other)
    }

    // The number of runs of the union with others. Walks both once.
    fn walked_count(&self, other: &RunList) -> usize
        ensures value { result
            ≡ run_count (set.union (set_of self.now.items) (set_of other.now.items)) }
        ensures few { result
            ≤ run_count (set_of self.now.items) + run_count (set_of other.now.items) }
    {
        let ours = self.as_slice();
        let others = other.as_slice();
        let mut own = 0;
        let mut theirs = 0;
        let Some(mut current) = next_run(ours, &mut own, others, &mut theirs) else {
            return 0;
        };
        let mut count = 1;
        while let Some(next) = next_run(ours, &mut own, others, &mut theirs) {
            if current.is_before(next) {
                count += 1;
                current = next;
            } else {
                current = current.joined(next);
            }
        }
        count
    }

    // Unites the runs with others in room that is there. Takes no memory. Searches for each of the others where `are_searched`
    // is true; else walks both once.
    pub(crate) fn absorb(&mut self, other: &RunList)
        requires { run_count (set_of self.old.items) + run_count (set_of other.now.items)
            ≤ self.old.room }
        ensures united { set_of self.new.items
            ≡ set.union (set_of self.old.items) (set_of other.now.items) }
        ensures room { self.old.room ≤ self.new.room }
    {
        if self.are_searched(other) {
            self.absorb_searched(other);
            return;
        }
        self.absorb_walked(other);
    }

    // Unites the runs with others in room that is there. Walks both once.
    fn absorb_walked(&mut self, other: &RunList)
        requires { run_count (set_of self.old.items) + run_count (set_of other.now.items)
            ≤ self.old.room }
        ensures united { set_of self.new.items
            ≡ set.union (set_of self.old.items) (set_of other.now.items) }
        ensures room { self.old.room ≤ self.new.room }
    {
        let others = other.as_slice();
        if others.is_empty() {
            return;
        }
        let own = self.runs.len();
        let _ = self.runs.extend_from_slice(others); // there is room, so it can't fail
        self.runs.rotate_left(own);
        let united = merge(&mut self.runs, other);
        self.runs.truncate(united);
    }
}

// Takes the run that begins first of the rests of two lists, each from a place on, and moves the place in its list past it.
// `None` if neither has a run left; then both places stay.
fn next_run(ours: &[Run], own: &mut usize, others: &[Run], theirs: &mut usize) -> Option<Run>
    ensures { MatchOption result
        (IsAtEnd ours.now own.old own.new × IsAtEnd others.now theirs.old theirs.new)
        (IsFirstOf ours.now own.old own.new others.now theirs.old theirs.new) }
{
    match (ours.get(*own), others.get(*theirs)) {
        (None, None) => None,
        (Some(run), None) => {
            *own += 1;
            Some(*run)
        }
        (None, Some(other)) => {
            *theirs += 1;
            Some(*other)
        }
        (Some(run), Some(other)) => {
            if run.begins_by(*other) {
                *own += 1;
                Some(*run)
            } else {
                *theirs += 1;
                Some(*other)
            }
        }
    }
}

// Unites runs with others in place: as many first places are free as there are others. Returns the number of runs of the union;
// they stand first. Walks both once.
fn merge(places: &mut [Run], other: &RunList) -> usize
    requires { ArePlaces places.old other.now.items }
    ensures within { result ≤ length places.new }
    ensures united { IsRunsOf (take result places.new)
        (set.union (set_of (drop (length other.now.items) places.old)) (set_of other.now.items)) }
    ensures limits { All IsRunWithinLimits (take result places.new) }
{
    let others = other.as_slice();
    let mut own = others.len();
    let mut theirs = 0;
    let Some(mut current) = next_run(places, &mut own, others, &mut theirs) else {
        return 0;
    };
    let mut written = 0;
    while let Some(next) = next_run(places, &mut own, others, &mut theirs) {
        if current.is_before(next) {
            places[written] = current;
            written += 1;
            current = next;
        } else {
            current = current.joined(next);
        }
    }
    places[written] = current;
    written + 1
}
