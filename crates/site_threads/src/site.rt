//! One site: its desk, and its threads.
ghost use Rattle.std.specs.Prelude.{◌≡◌, IfOk, List, vec_len};
ghost use Rattle.replica.specs.Site.{SiteState};
ghost use Rattle.site_desk.specs.Passes.{AreAll, AreNewPasses};
ghost use Rattle.site_threads.specs.Ends.{HasEnded};
ghost use Rattle.site_threads.specs.Ledgers.{IsBlankFor, IsJournalFor, IsLedgerOf};
ghost use Rattle.site_threads.specs.Limits.{IsStepLimit};
ghost use Rattle.site_threads.specs.Tasks.{AreDone, DoesTasks};

use crate::task::SiteWorkplace;
use crate::{SiteOutput, SiteTasks, Task, TaskOutput, TaskResults};
use launcher::{Launch, SiteFault, Start, Workplace};
use site_desk::{Pass, SiteDesk, SiteLedger, close};
use site_journal::Journaled;
use std::alloc::Global;
use std::marker::Brand;
use std::sync::Wait;
use std::sync::ledger::Blank;
use std::thread::Threads;

/// Does each of a site's tasks at this place, by the pass of the task's place, which is new, and in a
/// thread of its own, and returns when all have ended. No task begins before all threads of all sites
/// run.
///
/// Errors, in order: 1 `Memory`; 2 `NoThread`, if the system could not start a thread; 3 `NotBegun`,
/// if another site can't have its threads. No task of the site is then done, and all are dropped (this
/// project's own). No contract says which error it is.
pub fn run_threads<
    L: SiteLedger + Send + Sync,
    R: Threads + Wait + Sync,
    S: Sync,
    T: TaskOutput + Send + Drop,
    W: Workplace<S, R, T, Pass<L>, T::Output> + Sync,
>(
    rt: &R,
    alloc: Global,
    start: &Start,
    shared: &S,
    place: &W,
    passes: Vec<Pass<L>>,
    tasks: Vec<T>,
) -> Result<TaskResults<L, T::Output>, SiteFault>
    requires place { DoesTasks W.does T.gives L.site L.names }
    requires passes { AreNewPasses (vec_len tasks) passes.items }
    ensures all { IfOk result (λ all. AreAll (vec_len tasks) all.passes.items) }
    ensures done { IfOk result (λ all.
        AreDone T.gives L.site L.names tasks.items all.passes.items all.outputs.items) }
{
    launcher::run_threads(rt, alloc, start, shared, place, passes, tasks)
}

/// Closes the desk of a site whose tasks are all done, by the passes that they were done by (this
/// project's own).
pub fn close_site<L: SiteLedger, T: TaskOutput>(
    desk: SiteDesk<L>,
    all: TaskResults<L, T::Output>,
) -> SiteOutput<T::Output>
    requires { AreAll desk.passes all.passes.items }
    ensures { (tasks : List T) (replica : SiteState) → IsLedgerOf L.site L.names L.base replica
        → AreDone T.gives L.site L.names tasks all.passes.items all.outputs.items
        → HasEnded T.gives replica L.limit tasks result.journal result.outputs.items }
{
    let launcher::TaskResults { passes, outputs } = all;
    match close(desk, passes) {
        Ok(journal) => SiteOutput { journal, outputs },
        Err(_) => unreachable!(),
    }
}

// Runs the threads of a site at its desk, drops what they share, and closes the desk. Errors as of
// `run_threads`: no task was done, and all are dropped.
fn run_desk<
    L: SiteLedger + Send + Sync,
    R: Threads + Wait + Sync,
    S: Sync + Drop,
    T: Task<S, R> + Send + Drop,
>(
    rt: &R,
    alloc: Global,
    start: &Start,
    desk: SiteDesk<L>,
    passes: Vec<Pass<L>>,
    shared: S,
    tasks: Vec<T>,
) -> Result<SiteOutput<T::Output>, SiteFault>
    requires passes { AreNewPasses (vec_len tasks) passes.items }
    requires all { desk.passes ≡ vec_len tasks }
    ensures { IfOk result (λ end. (replica : SiteState)
        → IsLedgerOf L.site L.names L.base replica
        → HasEnded T.gives replica L.limit tasks.items end.journal end.outputs.items) }
{
    let place = SiteWorkplace { desk };
    let run = run_threads(rt, alloc, start, &shared, &place, passes, tasks);
    drop(shared);
    let SiteWorkplace { desk } = place;
    match run {
        Ok(all) => Ok(close_site::<L, T>(desk, all)),
        Err(fault) => {
            drop(desk);
            Err(fault)
        }
    }
}

// Makes the desk of a site under a ledger, runs its threads, and closes the desk. Errors: `Memory`, if
// there is none for the desk; those of `run_desk`. Then no task was done, and all are dropped.
fn run_site<
    L: SiteLedger + Send + Sync,
    R: Threads + Wait + Sync,
    S: Sync + Drop,
    T: Task<S, R> + Send + Drop,
>(
    rt: &R,
    alloc: Global,
    start: &Start,
    blank: Blank,
    journal: Journaled,
    shared: S,
    tasks: Vec<T>,
) -> Result<SiteOutput<T::Output>, SiteFault>
    requires blank { IsBlankFor L.name L.parts (vec_len tasks) blank }
    requires journal { IsJournalFor L.site L.names L.limit L.base journal }
    ensures { IfOk result (λ end. (replica : SiteState)
        → IsLedgerOf L.site L.names L.base replica
        → HasEnded T.gives replica L.limit tasks.items end.journal end.outputs.items) }
{
    let number = tasks.len() as u32;
    match SiteDesk::<L>::new(alloc, blank, journal, number) {
        Ok((desk, passes)) => run_desk(rt, alloc, start, desk, passes, shared, tasks),
        Err((_, journal)) => {
            drop(journal);
            drop(shared);
            drop(tasks);
            Err(SiteFault::Memory)
        }
    }
}

// Runs a site from its replica on, under a ledger that this call names. Errors: `Memory`, if there is
// none for the journal; those of `run_site`. Then no task was done, and all are dropped.
pub(crate) fn run_replica<R: Threads + Wait + Sync, S: Sync + Drop, T: Task<S, R> + Send + Drop>(
    rt: &R,
    alloc: Global,
    start: &Start,
    limit: u32,
    site: SiteTasks<S, T>,
) -> Result<SiteOutput<T::Output>, SiteFault>
    requires { IsStepLimit limit }
    ensures { IfOk result (λ end. HasEnded T.gives site.replica limit site.tasks.items
        end.journal end.outputs.items) }
{
    let SiteTasks {
        replica,
        shared,
        tasks,
    } = site;
    match Journaled::new(alloc, replica, limit) {
        Ok(journal) => {
            let blank = Blank::new(tasks.len() as u64);
            run_site::<Brand, R, S, T>(rt, alloc, start, blank, journal, shared, tasks)
        }
        Err(_) => {
            drop(shared);
            drop(tasks);
            Err(SiteFault::Memory)
        }
    }
}

impl<S: Drop, T: TaskOutput + Drop> Launch for SiteTasks<S, T> {
    ghost use Rattle.site_threads.specs.Ends.{HasEnded};

    type Output = SiteOutput<T::Output>;

    ghost ends = { λ site limit end. HasEnded T.gives site.replica limit site.tasks.items
        end.journal end.outputs.items };
}
