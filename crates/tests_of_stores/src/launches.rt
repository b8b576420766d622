//! A site with a store that is launched with two tasks.
ghost use Rattle.std.specs.Prelude.{◌≡◌};

use crate::memory_store::MemoryStore;
use crate::shared::{add, new_site_0};
use site_desk::Pass;
use status_report::Ask;
use std::alloc::Global;
use std::process::Abort;
use std::sync::Wait;
use std::thread::Threads;
use stored_desk::{CommitFault, StepStore, StoredDesk, StoredLedger};
use stored_threads::{
    ResumedSite, StoredSiteOutput, StoredSiteTasks, StoredTask, TaskEnd, TaskOutput,
    run_stored_sites,
};

// A task that asks its site once. Its output is whether the site's answer is durable.
#[derive(Drop)]
struct AskOnce {
    asked: Ask,
}

impl TaskOutput for AskOnce {
    ghost use Rattle.std.specs.Prelude.{⊤};

    type Output = bool;

    ghost gives = { λ task site names old output new. ⊤ };
}

// Asks a desk once by this pass. Returns whether the answer is durable.
fn asks_once<D: StepStore, L: StoredLedger, R: Wait>(
    rt: &R,
    desk: &StoredDesk<D, L>,
    pass: &mut Pass<L>,
    asked: &Ask,
) -> bool
    ensures { pass.new.ordinal ≡ pass.old.ordinal }
{
    match desk.call(rt, pass, asked) {
        Ok(settled) => {
            drop(settled);
            true
        }
        Err(_) => false,
    }
}

impl<S, R: Wait> StoredTask<S, R> for AskOnce {
    fn run<D: StepStore, L: StoredLedger>(
        self,
        rt: &R,
        _alloc: Global,
        _shared: &S,
        desk: &StoredDesk<D, L>,
        pass: Pass<L>,
    ) -> TaskEnd<L, bool> {
        let mut pass = pass;
        let AskOnce { asked } = self;
        let output = asks_once(rt, desk, &mut pass, &asked);
        drop(asked);
        TaskEnd { pass, output }
    }
}

// What site 0 ends with whose two tasks ask for the same add, over a store that takes a number of commits.
fn launched<R: Abort + Threads + Wait + Sync>(
    rt: &R,
    alloc: Global,
    commits: u32,
) -> StoredSiteOutput<MemoryStore, bool> {
    let mut tasks = Vec::new(alloc);
    let first = Ask::Command(add(rt));
    tasks.push(AskOnce { asked: first }).expect(rt, "memory");
    let second = Ask::Command(add(rt));
    tasks.push(AskOnce { asked: second }).expect(rt, "memory");
    let base = new_site_0(rt, alloc);
    let replica = match base.copy() {
        Ok(replica) => replica,
        Err(_) => rt.panic("memory"),
    };
    let store = MemoryStore::new(base, commits);
    let resumed = ResumedSite::new(replica, store);
    assert!(*rt; resumed.site().number() == 0 && resumed.list().len() == 1);
    let mut sites = Vec::new(alloc);
    let site = StoredSiteTasks {
        resumed,
        shared: (),
        tasks,
    };
    sites.push(site).expect(rt, "memory");
    let mut ends = run_stored_sites(rt, alloc, 10, sites).expect(rt, "ends");
    let end = ends.pop().expect(rt, "an end");
    drop(ends);
    end
}

#[test]
fn a_launched_site_saves_what_its_tasks_do_or_gives_the_fault(rt: HostRuntime) {
    let alloc = rt.alloc();
    let end = launched(&rt, alloc, 2);
    assert!(rt; end.outputs.as_slice() == [true, true].as_slice());
    assert!(rt; end.journal.count() == 2 && end.fault.is_none());
    let store = end.store.as_ref().expect(&rt, "a store");
    assert!(rt; store.steps == 2);
    drop(end);
    let failed = launched(&rt, alloc, 0);
    assert!(rt; failed.outputs.as_slice() == [false, false].as_slice());
    assert!(rt; failed.fault == Some(CommitFault::Full));
    let store = failed.store.as_ref().expect(&rt, "a store");
    assert!(rt; store.steps == 0);
    drop(failed);
}
