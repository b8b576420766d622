//! All sites, each in a thread of its own.
ghost use Rattle.std.specs.List.{All};
ghost use Rattle.std.specs.Prelude.{◌≡◌, ◌≢◌, ◌↔◌, ◌⊎◌, ℕ, ◌+◌, ◌<◌, ◌≤◌, Err, IfErr, IfOk};
ghost use Rattle.std.specs.Prelude.{Some, map, slice_get, vec_len};
ghost use Rattle.site_journal.specs.Journals.{IsOfSite};
ghost use Rattle.site_links.specs.Linking.{AreLinksOf};
ghost use Rattle.site_worker.specs.Gates.{IsGatedBy};
ghost use Rattle.site_worker.specs.Runs.{HasAnsweredAsks, HasBegun, HasFirstFault};
ghost use Rattle.site_worker.specs.Runs.{HavePumped, HaveRun};
ghost use Rattle.site_worker.specs.Working.{AreInOrder, AreOfPasses, ArePossibleSomewhere};
ghost use Rattle.site_worker.specs.Working.{receipts_in};

use crate::ends::{all_tasks, room_for, runs_of};
use crate::{RunFault, SiteEnd, SiteWork};
use replica::QueueList;
use site_desk::Gate;
use site_journal::MOST_STEPS;
use site_links::{SiteLinks, link_all};
use site_threads::{LaunchFault, run_sites as launch};
use std::alloc::Global;
use std::sync::Wait;
use std::thread::Threads;

/// The most sites that may run concurrently.
pub const MOST_RUN_SITES: usize = 8;

// The fault of a run whose sites could not be started.
fn run_fault_of(fault: LaunchFault) -> RunFault
    ensures { result ≢ RunFault.BadSites }
{
    match fault {
        LaunchFault::NoThread => RunFault::NoThread,
        LaunchFault::Memory => RunFault::Memory,
    }
}

// Runs the sites of works, with these links between them. Errors as of `run_sites`, without `BadSites`.
fn run_works<R: Threads + Wait + Sync, G: Gate + Send + Drop>(
    rt: &R,
    alloc: Global,
    list: &QueueList,
    works: Vec<SiteWork<G>>,
    links: SiteLinks,
) -> Result<Vec<SiteEnd<G>>, RunFault>
    requires few { vec_len works ≤ MOST_RUN_SITES }
    requires links { AreLinksOf (vec_len works) links }
    ensures ran { IfOk result (λ ends. HaveRun G.called list.now works ends) }
    ensures fault { IfErr result (λ fault. fault ≢ RunFault.BadSites) }
{
    let room = match room_for(alloc, works.len()) {
        Ok(room) => room,
        Err(_) => {
            drop(works);
            drop(links);
            return Err(RunFault::Memory);
        }
    };
    let all = match all_tasks(alloc, list, works, links) {
        Ok(all) => all,
        Err(_) => {
            drop(room);
            return Err(RunFault::Memory);
        }
    };
    match launch(rt, alloc, MOST_STEPS, all) {
        Ok(ends) => Ok(runs_of(ends, room)),
        Err(fault) => {
            drop(room);
            Err(run_fault_of(fault))
        }
    }
}

/// Runs sites concurrently, one for each work, with the numbers 0, 1 and so on and the queues of
/// `list`, and returns when all have ended. A gate that doesn't return keeps it from returning. Each
/// site has threads of its own:
///
/// - one runs its asks in order, and calls its gate at each with the ask's place, from 0;
/// - one cuts after each answered ask, and sends as the site's plan directs; after the last it sends
///   a frame of all that the site knows;
/// - one for each other site takes the frames of that site.
///
/// The first two have the site's passes 0 and 1, the others those from 2 on, in the order of the other
/// sites' numbers. A journal holds at most 1,000,000 steps. A thread that a fault stops drops the ends
/// of its links, and the bytes of a take that was refused. The others go on, and the site's end has the
/// fault of the first pass that has one.
///
/// Errors, in order: 1 `BadSites`, exactly if there are no works, or more than 8; 2 `Memory`, or
/// `NoThread` if the system could not start a thread. After an error no ask is run, and the works are
/// dropped.
pub fn run_sites<R: Threads + Wait + Sync, G: Gate + Send + Drop>(
    rt: &R,
    alloc: Global,
    list: &QueueList,
    works: Vec<SiteWork<G>>,
) -> Result<Vec<SiteEnd<G>>, RunFault>
    ensures number { IfOk result (λ ends. vec_len ends ≡ vec_len works) }
    ensures sites { IfOk result (λ ends. (site : ℕ) (end : _)
        → slice_get ends.items site ≡ Some end → IsOfSite site list.now end.journal) }
    ensures begun { IfOk result (λ ends. All (λ end. HasBegun end.journal) ends.items) }
    ensures passes { IfOk result (λ ends.
        All (λ end. vec_len end.receipts ≡ vec_len works + 1) ends.items) }
    ensures count { IfOk result (λ ends. All (λ end. end.journal.count
        ≡ receipts_in (map (λ list. list.items) end.receipts.items)) ends.items) }
    ensures own { IfOk result (λ ends. All (λ end.
        AreOfPasses 0 (map (λ list. list.items) end.receipts.items)) ends.items) }
    ensures order { IfOk result (λ ends. All (λ end.
        AreInOrder (map (λ list. list.items) end.receipts.items)) ends.items) }
    ensures answers { IfOk result (λ ends. (site : ℕ) (work : _) (end : _)
        → slice_get works.items site ≡ Some work → slice_get ends.items site ≡ Some end
        → HasAnsweredAsks site list.now work.asks.items
        (map (λ list. list.items) end.receipts.items) end.fault) }
    ensures gates { IfOk result (λ ends. (site : ℕ) (work : _) (end : _)
        → slice_get works.items site ≡ Some work → slice_get ends.items site ≡ Some end
        → IsGatedBy G.called work.gate (map (λ list. list.items) end.receipts.items) end.fault
        end.gate) }
    ensures pumped { IfOk result (λ ends. All (λ end.
        HavePumped (map (λ list. list.items) end.receipts.items) end.fault) ends.items) }
    ensures faults { IfOk result (λ ends. (site : ℕ) (work : _) (end : _)
        → slice_get works.items site ≡ Some work → slice_get ends.items site ≡ Some end
        → HasFirstFault work.asks.items (map (λ list. list.items) end.receipts.items)
        end.fault) }
    ensures possible { IfOk result (λ ends. (site : ℕ) (end : _)
        → slice_get ends.items site ≡ Some end
        → ArePossibleSomewhere site list.now (map (λ list. list.items) end.receipts.items)) }
    ensures bad_sites { (result ≡ Err RunFault.BadSites)
        ↔ ((vec_len works ≡ 0) ⊎ (MOST_RUN_SITES < vec_len works)) }
{
    if works.is_empty() || works.len() > MOST_RUN_SITES {
        return Err(RunFault::BadSites);
    }
    match link_all(alloc, works.len()) {
        Ok(links) => run_works(rt, alloc, list, works, links),
        Err(_) => {
            drop(works);
            Err(RunFault::Memory)
        }
    }
}
