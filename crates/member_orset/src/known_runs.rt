//! Runs of a context, borrowed.
ghost use Rattle.std.specs.Prelude.{◌≡◌, ◌≤◌, length, true, false};
ghost use Rattle.std.specs.List.{All, AllWithin};
ghost use Rattle.dots.specs.DotSets.{AreApart, IsRunsOf};
ghost use Rattle.causal_context.specs.Contexts.{IsRunWithinLimits};
ghost use Rattle.causal_context.specs.RunLists.{is_below};
ghost use Rattle.member_orset.specs.RunsApart.{apart-prop};

use causal_context::{Context, Run};
use dots::Dot;

// The runs of a context.
#[derive(Clone, Copy)]
pub(crate) struct KnownRuns<'a> {
    pub(crate) list: &'a [Run],
    ghost apart: { AreApart list.now } by { apart-prop list.now },
}

// Whether a run ends before a dot.
pub(crate) fn ends_before(run: Run, dot: Dot) -> bool
    ensures { result ≡ is_below dot run }
{
    run.site < dot.site() || run.site == dot.site() && run.last < dot.count()
}

impl<'a> KnownRuns<'a> {
    // The runs of a context.
    pub(crate) fn of(context: &'a Context) -> KnownRuns<'a>
        ensures value { IsRunsOf result.list.now context.now.dots }
        ensures limits { All IsRunWithinLimits result.list.now }
    {
        KnownRuns {
            list: context.as_slice(),
        }
    }

    // The number of runs that end before a dot.
    pub(crate) fn before(self, dot: Dot) -> usize
        ensures within { result ≤ length self.entry.list.now }
        ensures before { AllWithin (λ r. is_below dot r ≡ true) self.entry.list.now 0 result }
        ensures after { AllWithin (λ r. is_below dot r ≡ false) self.entry.list.now result
            (length self.entry.list.now) }
    {
        let (site, count) = (dot.site(), dot.count());
        self.list.partition_point(|run| run.site < site || run.site == site && run.last < count)
    }
}
