//! What a thread of a site with a store does.
ghost use Rattle.std.specs.Prelude.{◌≡◌};

use site_desk::Pass;
use site_threads::{TaskEnd, TaskOutput, Workplace};
use std::alloc::Global;
use stored_desk::{StepStore, StoredDesk, StoredLedger};

/// What one thread of a site with a store does. `S` is what the tasks of a site share, `R` the handle (this project's own).
pub trait StoredTask<S, R>: TaskOutput {
    /// Does the task: calls the site's desk by this pass, and gives the pass back.
    fn run<D: StepStore, L: StoredLedger>(
        self,
        rt: &R,
        alloc: Global,
        shared: &S,
        desk: &StoredDesk<D, L>,
        pass: Pass<L>,
    ) -> TaskEnd<L, Self::Output>
        ensures ordinal { result.pass.ordinal ≡ pass.ordinal }
        ensures gives { Self.gives self L.site L.names pass result.output result.pass };
}

// A site's desk with a store, as the place where its tasks are done.
#[derive(Drop)]
pub(crate) struct StoredWorkplace<D: StepStore, L: StoredLedger> {
    pub desk: StoredDesk<D, L>,
}

impl<D: StepStore, L: StoredLedger, S, R, T: StoredTask<S, R>> Workplace<
    S,
    R,
    T,
    Pass<L>,
    T::Output,
> for StoredWorkplace<D, L> {
    ghost use Rattle.std.specs.Prelude.{◌≡◌};

    ghost does = { λ task old output new.
        (new.ordinal ≡ old.ordinal) × T.gives task L.site L.names old output new };

    // Runs the task at the site's desk, by this pass, and gives the pass back.
    fn do_task(
        &self,
        rt: &R,
        alloc: Global,
        shared: &S,
        task: T,
        pass: Pass<L>,
    ) -> (Pass<L>, T::Output) {
        let TaskEnd { pass, output } = task.run(rt, alloc, shared, &self.desk, pass);
        (pass, output)
    }
}
