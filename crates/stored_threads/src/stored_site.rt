//! One site with a store: its desk, its threads, and how its store comes back.
ghost use Rattle.std.specs.Prelude.{◌≡◌, IfOk, IfSome, List, None, Some, vec_len};
ghost use Rattle.replica.specs.Site.{SiteState};
ghost use Rattle.site_journal.specs.Journals.{IsNewJournal};
ghost use Rattle.site_desk.specs.Passes.{AreAll, AreNewPasses};
ghost use Rattle.site_threads.specs.Ledgers.{IsBlankFor, IsJournalFor, IsLedgerOf};
ghost use Rattle.site_threads.specs.Limits.{IsStepLimit};
ghost use Rattle.site_threads.specs.Tasks.{AreDone};
ghost use Rattle.stored_threads.specs.ResumedSites.{IsNewStore};
ghost use Rattle.stored_threads.specs.StoredEnds.{HasStoredEnd, IsStoreOf};

use crate::stored_task::StoredWorkplace;
use crate::{StoredSiteOutput, StoredSiteTasks, StoredTask};
use dots::Memory;
use replica::Replica;
use site_desk::{Pass, SiteDesk};
use site_journal::Journaled;
use site_threads::{
    Launch, SiteFault, SiteOutput, Start, TaskOutput, TaskResults, close_site, run_threads,
};
use std::alloc::Global;
use std::marker::Brand;
use std::sync::Wait;
use std::sync::ledger::Blank;
use std::thread::Threads;
use stored_desk::{
    CommitFault, NewHistory, NewMark, SavedSteps, StepStore, StoredDesk, StoredLedger,
};

// The store of what was saved, and why steps may be missing in it, if they may: a commit has failed, or (`Other`) not all
// are saved, or no store came back.
fn store_of<D: StepStore, L: StoredLedger>(
    saved: Option<SavedSteps<D, L>>,
    are_all_saved: bool,
) -> (Option<D>, Option<CommitFault>)
    ensures stored { IfSome result.0 (λ store.
        IsStoreOf D.holds D.keeps D.begun L.base result.1 store) }
    ensures lost { result.0 ≡ None → result.1 ≡ Some CommitFault.Other }
{
    match saved {
        Some(saved) => {
            let fault = saved.fault();
            let store = saved.into_store();
            if fault.is_none() && !are_all_saved {
                return (Some(store), Some(CommitFault::Other));
            }
            (Some(store), fault)
        }
        None => (None, Some(CommitFault::Other)),
    }
}

// Saves all steps of a site whose tasks are all done, as `settle_anyhow` does, and closes its desk. Where not all are saved, the
// result says why.
fn close_stored_site<D: StepStore, L: StoredLedger, R: Wait, T: TaskOutput>(
    rt: &R,
    desk: StoredDesk<D, L>,
    all: TaskResults<L, T::Output>,
) -> StoredSiteOutput<D, T::Output>
    requires { AreAll desk.passes all.passes.items }
    ensures { (tasks : List T) (replica : SiteState) → IsLedgerOf L.site L.names L.base replica
        → AreDone T.gives L.site L.names tasks all.passes.items all.outputs.items
        → HasStoredEnd T.gives D.holds D.keeps D.begun replica L.limit tasks result }
{
    let are_all_saved = desk.settle_anyhow(rt).is_ok();
    let (desk, saved) = desk.into_parts();
    let SiteOutput { journal, outputs } = close_site::<L, T>(desk, all);
    let (store, fault) = store_of(saved, are_all_saved);
    StoredSiteOutput {
        journal,
        outputs,
        store,
        fault,
    }
}

// Runs the threads of a site at its desk, drops what they share, saves all steps, and closes the desk. Errors as of
// `run_threads`: no task was done, and all are dropped.
fn run_desk<
    L: StoredLedger + Send + Sync,
    R: Threads + Wait + Sync,
    D: StepStore + Send,
    S: Sync + Drop,
    T: StoredTask<S, R> + Send + Drop,
>(
    rt: &R,
    alloc: Global,
    start: &Start,
    desk: StoredDesk<D, L>,
    passes: Vec<Pass<L>>,
    shared: S,
    tasks: Vec<T>,
) -> Result<StoredSiteOutput<D, T::Output>, SiteFault>
where
    D::Group: Send,
    D::Base: Send,
    requires passes { AreNewPasses (vec_len tasks) passes.items }
    requires all { desk.passes ≡ vec_len tasks }
    ensures { IfOk result (λ end. (replica : SiteState)
        → IsLedgerOf L.site L.names L.base replica
        → HasStoredEnd T.gives D.holds D.keeps D.begun replica L.limit tasks.items end) }
{
    let place = StoredWorkplace { desk };
    let run = run_threads(rt, alloc, start, &shared, &place, passes, tasks);
    drop(shared);
    let StoredWorkplace { desk } = place;
    match run {
        Ok(all) => Ok(close_stored_site::<D, L, R, T>(rt, desk, all)),
        Err(fault) => {
            drop(desk);
            Err(fault)
        }
    }
}

// Makes the desk of a site over its store under a ledger, runs its threads, and closes the desk. Errors as of `run_desk`.
fn run_site<
    L: StoredLedger + Send + Sync,
    R: Threads + Wait + Sync,
    D: StepStore + Send,
    S: Sync + Drop,
    T: StoredTask<S, R> + Send + Drop,
>(
    rt: &R,
    alloc: Global,
    start: &Start,
    desk: SiteDesk<L>,
    passes: Vec<Pass<L>>,
    history: NewHistory,
    mark: NewMark,
    store: D,
    shared: S,
    tasks: Vec<T>,
) -> Result<StoredSiteOutput<D, T::Output>, SiteFault>
where
    D::Group: Send,
    D::Base: Send,
    requires passes { AreNewPasses (vec_len tasks) passes.items }
    requires all { desk.passes ≡ vec_len tasks }
    requires history { history ≡ L.history }
    requires mark { mark ≡ L.mark }
    requires store { IsNewStore D.holds D.keeps D.begun L.base store }
    ensures { IfOk result (λ end. (replica : SiteState)
        → IsLedgerOf L.site L.names L.base replica
        → HasStoredEnd T.gives D.holds D.keeps D.begun replica L.limit tasks.items end) }
{
    match StoredDesk::new(desk, store, history, mark) {
        Ok(desk) => run_desk(rt, alloc, start, desk, passes, shared, tasks),
        // A new desk has done no step, and is never refused. That isn't proved.
        Err((desk, store)) => {
            drop(desk);
            drop(store);
            drop(passes);
            drop(shared);
            drop(tasks);
            Err(SiteFault::Memory)
        }
    }
}

// Makes the desk of a site under a ledger, and runs the site over its store. Errors: `Memory`, if there is none for the
// desk; those of `run_site`. Then no task was done, and all are dropped.
fn run_journal<
    L: StoredLedger + Send + Sync,
    R: Threads + Wait + Sync,
    D: StepStore + Send,
    S: Sync + Drop,
    T: StoredTask<S, R> + Send + Drop,
>(
    rt: &R,
    alloc: Global,
    start: &Start,
    blank: Blank,
    journal: Journaled,
    history: NewHistory,
    mark: NewMark,
    store: D,
    shared: S,
    tasks: Vec<T>,
) -> Result<StoredSiteOutput<D, T::Output>, SiteFault>
where
    D::Group: Send,
    D::Base: Send,
    requires blank { IsBlankFor L.name L.parts (vec_len tasks) blank }
    requires journal { IsJournalFor L.site L.names L.limit L.base journal }
    requires history { history ≡ L.history }
    requires mark { mark ≡ L.mark }
    requires store { IsNewStore D.holds D.keeps D.begun L.base store }
    ensures { IfOk result (λ end. (replica : SiteState)
        → IsLedgerOf L.site L.names L.base replica
        → HasStoredEnd T.gives D.holds D.keeps D.begun replica L.limit tasks.items end) }
{
    let number = tasks.len() as u32;
    match SiteDesk::<L>::new(alloc, blank, journal, number) {
        Ok((desk, passes)) => run_site(
            rt, alloc, start, desk, passes, history, mark, store, shared, tasks,
        ),
        Err((_, journal)) => {
            drop(journal);
            drop(history);
            drop(mark);
            drop(store);
            drop(shared);
            drop(tasks);
            Err(SiteFault::Memory)
        }
    }
}

// The mark of a site's store, and the journal of its replica, without steps. Fails only when out of memory, and then
// drops the replica.
fn begin(alloc: Global, replica: Replica, limit: u32) -> Result<(NewMark, Journaled), Memory>
    requires { IsStepLimit limit }
    ensures { IfOk result (λ begun. IsNewJournal replica limit begun.1) }
{
    let Ok(mark) = NewMark::new(alloc) else {
        drop(replica);
        return Err(Memory);
    };
    match Journaled::new(alloc, replica, limit) {
        Ok(journal) => Ok((mark, journal)),
        Err(_) => {
            drop(mark);
            Err(Memory)
        }
    }
}

// Runs a site over its store, under a ledger that this call names. Errors: `Memory`, as of `begin`; those of
// `run_journal`. Then no task was done, and all are dropped.
pub(crate) fn run_replica<
    R: Threads + Wait + Sync,
    D: StepStore + Send,
    S: Sync + Drop,
    T: StoredTask<S, R> + Send + Drop,
>(
    rt: &R,
    alloc: Global,
    start: &Start,
    limit: u32,
    site: StoredSiteTasks<D, S, T>,
) -> Result<StoredSiteOutput<D, T::Output>, SiteFault>
where
    D::Group: Send,
    D::Base: Send,
    requires limit { IsStepLimit limit }
    ensures { IfOk result (λ end. HasStoredEnd T.gives D.holds D.keeps D.begun
        site.resumed.replica limit site.tasks.items end) }
{
    let StoredSiteTasks {
        resumed,
        shared,
        tasks,
    } = site;
    let (replica, store) = resumed.into_parts();
    match begin(alloc, replica, limit) {
        Ok((mark, journal)) => {
            let blank = Blank::new(tasks.len() as u64);
            let history = NewHistory::new();
            run_journal::<Brand, R, D, S, T>(
                rt, alloc, start, blank, journal, history, mark, store, shared, tasks,
            )
        }
        Err(_) => {
            drop(store);
            drop(shared);
            drop(tasks);
            Err(SiteFault::Memory)
        }
    }
}

impl<D: StepStore + Send, S: Drop, T: TaskOutput + Drop> Launch for StoredSiteTasks<D, S, T> {
    ghost use Rattle.stored_threads.specs.StoredEnds.{HasStoredEnd};

    type Output = StoredSiteOutput<D, T::Output>;

    ghost ends = { λ site limit end. HasStoredEnd T.gives D.holds D.keeps D.begun
        site.resumed.replica limit site.tasks.items end };
}
