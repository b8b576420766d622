//! The tasks of a site's threads.
ghost use Rattle.std.specs.Prelude.{◌≡◌, ◌+◌, ◌<◌, ◌≤◌, IfOk, vec_capacity, vec_len};
ghost use Rattle.std.specs.List.{insert};
ghost use Rattle.site_worker.specs.WorkTasks.{tasks_for};

use crate::asking::{Worked, ask_all};
use crate::pumping::{send_all, take_all};
use crate::{LinkPlan, SiteWork};
use dots::Memory;
use site_desk::{Gate, Pass, SiteBell, SiteDesk, SiteLedger};
use site_journal::{DeskFault, Receipt};
use site_links::{LinkEnds, LinkReceiver, LinkSender};
use site_threads::{Task, TaskEnd, TaskOutput};
use status_report::Ask;
use std::alloc::Global;
use std::sync::Wait;

// The task of one thread of a site.
#[derive(Drop)]
pub(crate) enum WorkTask<G: Drop> {
    // Asks these in order, with this gate at each.
    Ask(Vec<Ask>, G),
    // Cuts, and sends on these links as the plan directs.
    Send(Vec<LinkSender>, LinkPlan),
    // Takes the frames of this link.
    Take(LinkReceiver),
}

// The result of a thread of a site: its receipts in order, the fault that stopped it, if any, and
// the gate of the thread that asks.
#[derive(Drop)]
pub(crate) struct WorkOutput<G: Drop> {
    pub receipts: Vec<Receipt>,
    pub fault: Option<DeskFault>,
    pub gate: Option<G>,
}

impl<G: Gate + Send + Drop> TaskOutput for WorkTask<G> {
    ghost use Rattle.site_desk.specs.Ports.{HasDoneAll};
    ghost use Rattle.site_worker.specs.WorkTasks.{DoesTask};

    type Output = WorkOutput<G>;

    ghost gives = { λ task site names old output new.
        HasDoneAll site names old output.receipts.items new
        × DoesTask G.called site names task output };
}

// The end of a task whose pass has worked.
fn end_of<L: SiteLedger, G: Drop>(worked: Worked<L>, gate: Option<G>) -> TaskEnd<L, WorkOutput<G>>
    ensures pass { result.pass ≡ worked.pass }
    ensures receipts { result.output.receipts ≡ worked.receipts }
    ensures fault { result.output.fault ≡ worked.fault }
    ensures gate { result.output.gate ≡ gate }
{
    let Worked {
        pass,
        receipts,
        fault,
    } = worked;
    let output = WorkOutput {
        receipts,
        fault,
        gate,
    };
    TaskEnd { pass, output }
}

impl<G: Gate + Send + Drop, R: Wait> Task<SiteBell, R> for WorkTask<G> {
    // Does the task at the desk; `shared` is the site's bell, which the task that asks rings and
    // ends, and the one that sends hears to its end. Only a task that asks gives a gate back.
    fn run<L: SiteLedger>(
        self,
        rt: &R,
        alloc: Global,
        shared: &SiteBell,
        desk: &SiteDesk<L>,
        pass: Pass<L>,
    ) -> TaskEnd<L, WorkOutput<G>> {
        match self {
            WorkTask::Ask(asks, gate) => {
                let mut gate = gate;
                let asked = ask_all(rt, alloc, desk, pass, asks.as_slice(), &mut gate, shared);
                drop(asks);
                end_of(asked, Some(gate))
            }
            WorkTask::Send(links, plan) => {
                let sent = send_all(rt, alloc, desk, pass, links, &plan, shared);
                drop(plan);
                end_of(sent, None)
            }
            WorkTask::Take(link) => end_of(take_all(rt, alloc, desk, pass, link), None),
        }
    }
}

// Inserts an element into a list that has room for it.
pub(crate) fn insert_with_room<T: Drop>(list: &mut Vec<T>, place: usize, element: T)
    requires place { place ≤ vec_len list.old }
    requires room { vec_len list.old < vec_capacity list.old }
    ensures items { list.new.items ≡ insert list.old.items place element }
    ensures len { vec_len list.new ≡ vec_len list.old + 1 }
    ensures capacity { vec_capacity list.new ≡ vec_capacity list.old }
{
    if list.insert(place, element).is_err() {
        unreachable!();
    }
}

// The tasks of a site: one thread asks, one sends, and one takes for each link that receives.
// Fails only when out of memory, and then drops work and links.
pub(crate) fn tasks_of<G: Drop>(
    alloc: Global,
    work: SiteWork<G>,
    links: LinkEnds,
) -> Result<Vec<WorkTask<G>>, Memory>
    requires { vec_len links.from ≤ 7 }
    ensures tasks { IfOk result (λ tasks. tasks.items ≡ tasks_for work links) }
    ensures len { IfOk result (λ tasks. vec_len tasks ≡ vec_len links.from + 2) }
{
    let SiteWork { asks, plan, gate } = work;
    let LinkEnds { to, from } = links;
    let mut tasks = match Vec::with_capacity(alloc, from.len() + 2) {
        Ok(tasks) => tasks,
        Err(_) => {
            drop(asks);
            drop(plan);
            drop(gate);
            drop(to);
            drop(from);
            return Err(Memory);
        }
    };
    tasks.push_reserved(WorkTask::Ask(asks, gate));
    tasks.push_reserved(WorkTask::Send(to, plan));
    let mut from = from;
    while let Some(link) = from.pop() {
        insert_with_room(&mut tasks, 2, WorkTask::Take(link));
    }
    drop(from);
    Ok(tasks)
}
