//! All sites, each in a thread of its own.
ghost use Rattle.std.specs.Prelude.{◌≡◌, IfOk, vec_len};
ghost use Rattle.site_threads.specs.Ends.{HasEnded, HaveEnded};
ghost use Rattle.site_threads.specs.Limits.{IsStepLimit};

use crate::site::run_replica;
use crate::{SiteOutput, SiteTasks, Task};
use launcher::{LaunchFault, SiteFault, Start, launch_sites};
use std::alloc::Global;
use std::sync::Wait;
use std::thread::Threads;

/// Runs sites at once, and returns when all their tasks have ended: each site's journal and what its tasks gave, in order. A site begins as
/// its replica, and has the replica's number and queues. The journal of a site has room for `limit` steps, 1 to 1,000,000. Each of its
/// tasks, 1 to 256, runs in a thread of its own, by the pass of the task's place.
///
/// No task begins before all threads of all sites run. If a thread can't start, or memory is lacking, no task begins, and all are dropped.
///
/// Errors, in order: 1 `Memory`, if there is none to start sites; 2 `NoThread`, if the system could not start a thread; 3 `Memory`, if a
/// site had none (this project's own). No contract says which.
pub fn run_sites<R: Threads + Wait + Sync, S: Send + Sync + Drop, T: Task<S, R> + Send + Drop>(
    rt: &R,
    alloc: Global,
    limit: u32,
    all: Vec<SiteTasks<S, T>>,
) -> Result<Vec<SiteOutput<T::Output>>, LaunchFault>
    requires { IsStepLimit limit }
    ensures number { IfOk result (λ ends. vec_len ends ≡ vec_len all) }
    ensures ends { IfOk result (λ ends. HaveEnded T.gives limit all.items ends.items) }
{
    let start = Start::new(all.len());
    let lent = &start;
    let run = |site: SiteTasks<S, T>| -> Result<SiteOutput<T::Output>, SiteFault>
        requires { IsStepLimit limit }
        ensures { IfOk result (λ end. HasEnded T.gives site.replica limit site.tasks.items
            end.journal end.outputs.items) }
    { run_replica(rt, alloc, lent, limit, site) };
    launch_sites(rt, alloc, lent, limit, &run, all)
}
