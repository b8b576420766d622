//! All sites with a store, each in a thread of its own.
ghost use Rattle.std.specs.Prelude.{◌≡◌, IfOk, vec_len};
ghost use Rattle.site_threads.specs.Limits.{IsStepLimit};
ghost use Rattle.stored_threads.specs.StoredEnds.{HasStoredEnd, HaveStoredEnds};

use crate::stored_site::run_replica;
use crate::{StoredSiteOutput, StoredSiteTasks, StoredTask};
use site_threads::{LaunchFault, SiteFault, Start, launch_sites};
use std::alloc::Global;
use std::sync::Wait;
use std::thread::Threads;
use stored_desk::StepStore;

/// Runs sites with stores at once, and returns when all their tasks have ended. The journal of each has room for `limit` steps, 1 to
/// 1,000,000. Each of its tasks, 1 to 256, runs in a thread of its own, by the pass of the task's place. Once all have ended the site saves
/// all its steps, unless a commit has failed, and gives its journal, what its tasks gave, and its store. While it is out of memory it tries
/// again.
///
/// No task begins before all threads of all sites run. If a thread can't start, or memory is lacking, no task begins, and all are dropped,
/// stores too.
///
/// Errors, in order: 1 `Memory`, if there is none to start sites; 2 `NoThread`, if the system could not start a thread; 3 `Memory`, if a
/// site had none (this project's own). No contract says which.
pub fn run_stored_sites<
    R: Threads + Wait + Sync,
    D: StepStore + Send,
    S: Send + Sync + Drop,
    T: StoredTask<S, R> + Send + Drop,
>(
    rt: &R,
    alloc: Global,
    limit: u32,
    all: Vec<StoredSiteTasks<D, S, T>>,
) -> Result<Vec<StoredSiteOutput<D, T::Output>>, LaunchFault>
where
    D::Group: Send,
    D::Base: Send,
    requires limit { IsStepLimit limit }
    ensures number { IfOk result (λ ends. vec_len ends ≡ vec_len all) }
    ensures ends { IfOk result (λ ends.
        HaveStoredEnds T.gives D.holds D.keeps D.begun limit all.items ends.items) }
{
    let start = Start::new(all.len());
    let lent = &start;
    let run = |site: StoredSiteTasks<D, S, T>| -> Result<StoredSiteOutput<D, T::Output>, SiteFault>
        requires limit { IsStepLimit limit }
        ensures { IfOk result (λ end. HasStoredEnd T.gives D.holds D.keeps D.begun
            site.resumed.replica limit site.tasks.items end) }
    { run_replica(rt, alloc, lent, limit, site) };
    launch_sites(rt, alloc, lent, limit, &run, all)
}
