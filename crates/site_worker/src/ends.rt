//! The inputs and the results of sites.
ghost use Rattle.std.specs.List.{All};
ghost use Rattle.std.specs.Prelude.{◌≡◌, ◌≤◌, IfOk, vec_capacity, vec_len};
ghost use Rattle.replica.specs.Deeds.{IsNew};
ghost use Rattle.site_links.specs.Linking.{AreLinksOf};
ghost use Rattle.site_worker.specs.declared.ends.TheConstants.{MOST_RUN_PASSES};
ghost use Rattle.site_worker.specs.WorkTasks.{AreRunsOf, FirstHasGate, HaveTasks, IsRunOf};
ghost use Rattle.site_worker.specs.WorkTasks.{tasks_for};

use crate::tasks::{WorkOutput, WorkTask, insert_with_room, tasks_of};
use crate::{SiteEnd, SiteWork};
use dots::{Memory, SiteId};
use replica::{QueueList, Replica};
use site_desk::{Gate, SiteBell};
use site_journal::Receipt;
use site_links::{LinkEnds, SiteLinks};
use site_threads::{SiteOutput, SiteTasks};
use std::alloc::Global;

// The input of a site of this number with these queues: a new replica, and this work. Fails only when
// out of memory, and then drops work and links.
fn launch_of<G: Gate + Send + Drop>(
    alloc: Global,
    number: SiteId,
    list: &QueueList,
    work: SiteWork<G>,
    links: LinkEnds,
) -> Result<SiteTasks<SiteBell, WorkTask<G>>, Memory>
    requires from { vec_len links.from ≤ 7 }
    ensures number { IfOk result (λ site. site.replica.site ≡ number) }
    ensures names { IfOk result (λ site. site.replica.names ≡ list.now) }
    ensures new { IfOk result (λ site. IsNew site.replica) }
    ensures tasks { IfOk result (λ site. site.tasks.items ≡ tasks_for work links) }
{
    let tasks = tasks_of(alloc, work, links)?;
    let Ok(queues) = list.copy() else {
        drop(tasks);
        return Err(Memory);
    };
    Ok(SiteTasks {
        replica: Replica::new(alloc, number, queues),
        shared: SiteBell::new(),
        tasks,
    })
}

// The inputs of all sites, with the numbers 0, 1 and so on and these queues, and a bell for each.
// Fails only when out of memory, and then drops works and links.
pub(crate) fn all_tasks<G: Gate + Send + Drop>(
    alloc: Global,
    list: &QueueList,
    works: Vec<SiteWork<G>>,
    links: SiteLinks,
) -> Result<Vec<SiteTasks<SiteBell, WorkTask<G>>>, Memory>
    requires few { vec_len works ≤ 8 }
    requires links { AreLinksOf (vec_len works) links }
    ensures { IfOk result (λ all. HaveTasks list.now works.items all.items) }
{
    let mut works = works;
    let mut links = links;
    let mut all = match Vec::with_capacity(alloc, works.len()) {
        Ok(all) => all,
        Err(_) => {
            drop(works);
            drop(links);
            return Err(Memory);
        }
    };
    while let Some(work) = works.pop() {
        let Some(ends) = links.pop() else {
            unreachable!();
        };
        let Some(number) = SiteId::new(works.len() as u16) else {
            unreachable!();
        };
        match launch_of(alloc, number, list, work, ends) {
            Ok(site) => insert_with_room(&mut all, 0, site),
            Err(_) => {
                drop(works);
                drop(links);
                drop(all);
                return Err(Memory);
            }
        }
    }
    drop(works);
    drop(links);
    Ok(all)
}

// The most passes of a site: one that asks, one that sends, and one for each of 7 others.
const MOST_RUN_PASSES: usize = 9;

// Room for the results of sites: for the ends, and for each site for the receipts of its passes. It is
// reserved before the sites run, so that no result is lost.
#[derive(Drop)]
pub(crate) struct EndRoom<G: Drop> {
    pub ends: Vec<SiteEnd<G>>,
    pub receipts: Vec<Vec<Vec<Receipt>>>,
}

// Room for the ends of `sites` sites. Fails only when out of memory.
pub(crate) fn room_for<G: Drop>(alloc: Global, sites: usize) -> Result<EndRoom<G>, Memory>
    ensures no_ends { IfOk result (λ room. vec_len room.ends ≡ 0) }
    ensures ends { IfOk result (λ room. sites ≤ vec_capacity room.ends) }
    ensures number { IfOk result (λ room. vec_len room.receipts ≡ sites) }
    ensures none { IfOk result (λ room. All (λ lists. vec_len lists ≡ 0) room.receipts.items) }
    ensures lists { IfOk result (λ room.
        All (λ lists. MOST_RUN_PASSES ≤ vec_capacity lists) room.receipts.items) }
{
    let ends = Vec::with_capacity(alloc, sites)?;
    let mut receipts = match Vec::with_capacity(alloc, sites) {
        Ok(receipts) => receipts,
        Err(_) => {
            drop(ends);
            return Err(Memory);
        }
    };
    for _site in 0..sites {
        match Vec::with_capacity(alloc, MOST_RUN_PASSES) {
            Ok(lists) => receipts.push_reserved(lists),
            Err(_) => {
                drop(ends);
                drop(receipts);
                return Err(Memory);
            }
        }
    }
    Ok(EndRoom { ends, receipts })
}

// The end of a site, from the results of its tasks. Its fault and its gate are those of the first task
// that has one. `receipts` is empty, with room for a list of each task.
fn run_of<G: Gate + Send + Drop>(
    end: SiteOutput<WorkOutput<G>>,
    receipts: Vec<Vec<Receipt>>,
) -> SiteEnd<G>
    requires gate { FirstHasGate end.outputs.items }
    requires none { vec_len receipts ≡ 0 }
    requires room { vec_len end.outputs ≤ vec_capacity receipts }
    ensures { IsRunOf end result }
{
    let SiteOutput { journal, outputs } = end;
    let mut receipts = receipts;
    let mut fault = None;
    let mut gate = None;
    let mut outputs = outputs;
    while let Some(output) = outputs.pop() {
        let WorkOutput {
            receipts: list,
            fault: own,
            gate: its,
        } = output;
        insert_with_room(&mut receipts, 0, list);
        fault = own.or(fault);
        gate = its.or(gate);
    }
    drop(outputs);
    let Some(gate) = gate else {
        unreachable!();
    };
    SiteEnd {
        journal,
        receipts,
        gate,
        fault,
    }
}

// The ends of sites, in their order, from the results of their tasks, in the room of `room_for`.
pub(crate) fn runs_of<G: Gate + Send + Drop>(
    ends: Vec<SiteOutput<WorkOutput<G>>>,
    room: EndRoom<G>,
) -> Vec<SiteEnd<G>>
    requires gates { All (λ end. FirstHasGate end.outputs.items) ends.items }
    requires passes { All (λ end. vec_len end.outputs ≤ MOST_RUN_PASSES) ends.items }
    requires no_ends { vec_len room.ends ≡ 0 }
    requires ends { vec_len ends ≤ vec_capacity room.ends }
    requires number { vec_len ends ≡ vec_len room.receipts }
    requires none { All (λ lists. vec_len lists ≡ 0) room.receipts.items }
    requires lists { All (λ lists. MOST_RUN_PASSES ≤ vec_capacity lists) room.receipts.items }
    ensures { AreRunsOf ends.items result.items }
{
    let EndRoom {
        ends: mut runs,
        mut receipts,
    } = room;
    let mut ends = ends;
    while let Some(end) = ends.pop() {
        let Some(lists) = receipts.pop() else {
            unreachable!();
        };
        insert_with_room(&mut runs, 0, run_of(end, lists));
    }
    drop(ends);
    drop(receipts);
    runs
}
