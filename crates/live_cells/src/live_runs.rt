//! Runs of live dots: dots of one site with consecutive counts.
ghost use Rattle.std.specs.Prelude.{◌≡◌, ◌-◌, ◌<◌, ◌≤◌, ◌^◌, length};
ghost use Rattle.live_cells.specs.LiveRuns.{IsLiveRun, run-prop};

use crate::placed::Placed;

// A run that begins at a place of live dots: the last place known to be in it, and a place past that, before which it ends.
#[derive(Drop)]
struct LiveRun<'a> {
    dots: &'a [Placed],
    first: usize,
    last: usize,
    past: usize,
    ghost order: { first ≤ last },
    ghost some: { last < past },
    ghost within: { past ≤ length dots.now },
    ghost limit: { past < 2 ^ 63 },
    ghost run: { IsLiveRun dots.now first last } by { run-prop dots.now first last },
}

impl<'a> LiveRun<'a> {
    // Advances by `step` places and returns true, if the dot there is of the run. Otherwise notes that the run ends before
    // that place, and returns false. No contract says which; either way fewer places are left to search.
    fn go(&mut self, step: usize) -> bool
        requires some { 0 < step }
        requires within { step < self.old.past - self.old.last }
        ensures dots { self.new.dots.now ≡ self.old.dots.now }
        ensures first { self.new.first ≡ self.old.first }
        ensures less { self.new.past - self.new.last < self.old.past - self.old.last }
    {
        let (dots, first, place) = (self.dots, self.first, self.last + step);
        let (from, to) = (dots[first].dot, dots[place].dot);
        if to.site() != from.site() {
            self.past = place;
            return false;
        }
        if to.count() != from.count() + (place - first) as u64 {
            self.past = place;
            return false;
        }
        self.last = place;
        true
    }
}

/// Returns a place up to which the dots from `first` on are a run: the last one, where dots rise. The search uses steps that
/// double, and then bisection. No clause states that it is the last one: code that reads runs is right also if a run is
/// given in parts.
pub fn live_run_end(dots: &[Placed], first: usize) -> usize
    requires { first < length dots.now }
    ensures least { first ≤ result }
    ensures within { result < length dots.now }
    ensures run { IsLiveRun dots.now first result }
{
    let mut run = LiveRun {
        dots,
        first,
        last: first,
        past: dots.len(),
    };
    let mut step: usize = 1;
    while step < run.past - run.last {
        if !run.go(step) {
            break;
        }
        step = step.saturating_mul(2);
    }
    while run.past - run.last > 1 {
        let half = (run.past - run.last) / 2;
        let _ = run.go(half);
    }
    run.last
}
