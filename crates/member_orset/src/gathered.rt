ghost use Rattle.std.specs.Prelude.{◌≡◌, ◌+◌, ◌<◌, ◌≤◌, ◌^◌, ◌↔◌, IfOk};
ghost use Rattle.std.specs.FinSet as set;
ghost use Rattle.dots.specs.Orders.{dot_cmp};
ghost use Rattle.dots.specs.DotSets.{dots_between, run_count};
ghost use Rattle.member_orset.specs.Gathering.{IsGathered, runs_after};

use causal_context::{Context, ContextFault, Run};
use dots::MOST_RUNS;
use std::alloc::Global;

// Dots that are gathered run by run in order, and their number of runs. The runs are counted even if the context
// can't take more.
#[derive(Drop)]
pub(crate) struct Gathered {
    pub(crate) context: Context,
    pub(crate) runs: u64,
    pub(crate) fault: Option<ContextFault>,
}

impl Gathered {
    // No dots. Takes no memory.
    pub(crate) fn none(alloc: Global) -> Gathered
        ensures none { IsGathered result set.empty }
        ensures runs { result.runs ≡ 0 }
    {
        Gathered {
            context: Context::new(alloc),
            runs: 0,
            fault: None,
        }
    }

    // Adds the dots of a run. If it `begins` one here, the number of runs rises; otherwise it continues the last
    // one. The first fault of the context is kept for `finish`; after it, runs are only counted.
    pub(crate) fn add(&mut self, run: Run, begins: bool)
        requires { self.old.runs < 2 ^ 60 }
        ensures gathered { (dots : set.FinSet dot_cmp)
            → IsGathered self.old dots
            → run_count (set.union dots (dots_between run.site run.first run.last))
            ≡ runs_after (run_count dots) begins
            → IsGathered self.new (set.union dots (dots_between run.site run.first run.last)) }
        ensures runs { self.new.runs ≡ runs_after self.old.runs begins }
    {
        if begins {
            self.runs += 1;
        }
        if self.fault.is_none() {
            self.fault = self.context.insert_run(run.site, run.first, run.last).err();
        }
    }

    // The context of the dots. Errors, in order: 1 `RunsFull`, exactly where they make more than 65,536 runs; 2
    // `Memory`.
    pub(crate) fn finish(self) -> Result<Context, ContextFault>
        ensures ok { (dots : set.FinSet dot_cmp)
            → IsGathered self dots
            → IfOk result (λ context. context.dots ≡ dots) }
        ensures full { (dots : set.FinSet dot_cmp)
            → IsGathered self dots
            → (result ≡ Err ContextFault.RunsFull) ↔ (MOST_RUNS < run_count dots) }
    {
        let Gathered {
            context,
            runs,
            fault,
        } = self;
        if runs > MOST_RUNS as u64 {
            return Err(ContextFault::RunsFull);
        }
        if fault.is_some() {
            return Err(ContextFault::Memory);
        }
        Ok(context)
    }
}
