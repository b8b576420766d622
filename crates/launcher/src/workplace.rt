//! Where tasks are done.
use std::alloc::Global;

/// Where the tasks of a site are done: its desk, in whatever form. `S` is what the tasks of a site
/// share, `R` the handle, `T` the tasks, `P` their passes, `O` what they give (this project's own).
pub trait Workplace<S, R, T, P, O> {
    /// `does task old output new`: here the task gives `output`, and leads its pass from `old` to
    /// `new`.
    ghost does: { T → P → O → P → Type 0 };

    /// Does the task by this pass. Returns the pass, and what the task gives.
    fn do_task(&self, rt: &R, alloc: Global, shared: &S, task: T, pass: P) -> (P, O)
        ensures { does task pass result.1 result.0 };
}
