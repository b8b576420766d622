ghost use Rattle.std.specs.Prelude.{◌≡◌, ◌≤◌, length, true, false, MatchOption};
ghost use Rattle.std.specs.List.{Contains};
ghost use Rattle.std.specs.List.Sorted.{IsPartitionPoint};
ghost use Rattle.dots.specs.DotSets.{in_run, in_runs, is_apart, last_dot, next_dot};
ghost use Rattle.causal_context.specs.Contexts.{IsRunWithinLimits};
ghost use Rattle.causal_context.specs.RunLists.{is_below};

use crate::Run;
use crate::run_list::RunList;
use dots::SiteId;

impl RunList {
    // How many runs end before the dot of a site and a count.
    fn place(&self, site: SiteId, count: u64) -> usize
        ensures within { result ≤ length self.now.items }
        ensures place { IsPartitionPoint
            (λ r. is_below (record { site = site; count = count }) r ≡ true)
            (λ r. is_below (record { site = site; count = count }) r ≡ false) self.now.items result }
    {
        self.as_slice()
            .partition_point(|run| run.is_below(site, count))
    }

    // The run that has the dot of a site and a count; `None` if no run has it. The dot past its last
    // one is in no run. It is found by bisection.
    pub(crate) fn run_with(&self, site: SiteId, count: u64) -> Option<Run>
        ensures { MatchOption result
            (in_runs self.now.items (record { site = site; count = count }) ≡ false)
            (λ r. Contains self.now.items r
            × (in_run (record { site = site; count = count }) r ≡ true)
            × (in_runs self.now.items (next_dot (last_dot r)) ≡ false)) }
    {
        let runs = self.as_slice();
        let index = self.place(site, count);
        if index == runs.len() {
            return None;
        }
        let run = runs[index];
        if !run.has(site, count) {
            return None;
        }
        Some(run)
    }

    // How many runs lie before another one and don't touch it.
    pub(crate) fn runs_before(&self, run: Run) -> usize
        ensures within { result ≤ length self.now.items }
        ensures place { IsPartitionPoint (λ r. is_apart r run ≡ true)
            (λ r. is_apart r run ≡ false) self.now.items result }
        ensures limits { IsRunWithinLimits run }
    {
        let (site, first) = (run.site, run.first);
        self.as_slice()
            .partition_point(|other| other.ends_apart(site, first))
    }
}
