//! What a thread of a site does.
ghost use Rattle.std.specs.Prelude.{◌≡◌};

use launcher::Workplace;
use site_desk::{Pass, SiteDesk, SiteLedger};
use std::alloc::Global;

/// What a task gives. It is apart from [`Task`], so that it depends neither on what the tasks of a
/// site share nor on the handle (this project's own).
pub trait TaskOutput {
    ghost use Rattle.std.specs.Prelude.{ℕ, List};
    ghost use Rattle.site_desk.specs.Passes.{PassState};

    /// The task's result.
    type Output: Drop + Send;

    /// `gives task site names old output new`: at the site of the number `site`, with the queues
    /// `names`, the task gives `output` and leads its pass from `old` to `new`.
    ghost gives: { Self → ℕ → List (List ℕ) → PassState → Self.Output → PassState → Type 0 };
}

/// The result of a task, and its pass (this project's own).
#[derive(Drop)]
pub struct TaskEnd<L: SiteLedger, O> {
    /// The pass that the task was done by.
    pub pass: Pass<L>,
    /// What the task gave.
    pub output: O,
}

/// What one thread of a site does. `S` is what the tasks of a site share, `R` the handle (this
/// project's own).
pub trait Task<S, R>: TaskOutput {
    /// Does the task: calls the site's desk by this pass, and gives the pass back.
    fn run<L: SiteLedger>(
        self,
        rt: &R,
        alloc: Global,
        shared: &S,
        desk: &SiteDesk<L>,
        pass: Pass<L>,
    ) -> TaskEnd<L, Self::Output>
        ensures ordinal { result.pass.ordinal ≡ pass.ordinal }
        ensures gives { Self.gives self L.site L.names pass result.output result.pass };
}

// A site's desk, as the place where its tasks are done.
#[derive(Drop)]
pub(crate) struct SiteWorkplace<L: SiteLedger> {
    pub desk: SiteDesk<L>,
}

impl<L: SiteLedger, S, R, T: Task<S, R>> Workplace<S, R, T, Pass<L>, T::Output>
    for SiteWorkplace<L> {
    ghost use Rattle.std.specs.Prelude.{◌≡◌};

    ghost does = { λ task old output new.
        (new.ordinal ≡ old.ordinal) × T.gives task L.site L.names old output new };

    // Runs the task at the site's desk, by this pass, and gives the pass back.
    fn do_task(
        &self,
        rt: &R,
        alloc: Global,
        shared: &S,
        task: T,
        pass: Pass<L>,
    ) -> (Pass<L>, T::Output) {
        let TaskEnd { pass, output } = task.run(rt, alloc, shared, &self.desk, pass);
        (pass, output)
    }
}

/// What the threads of a site give back: its passes and its tasks' outputs, in the order of the tasks.
pub type TaskResults<L, O> = launcher::TaskResults<Pass<L>, O>;
