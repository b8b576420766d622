//! The tasks of the threads of a site with a store.
ghost use Rattle.std.specs.Prelude.{◌≡◌, ◌+◌, IfOk, vec_len};

use crate::peer_link::PeerLink;
use crate::pumping::{send_news, take_news};
use crate::site::Site;
use crate::stored_site::StoredSite;
use crate::working::{SiteTask, answer_over};
use dots::{Memory, SiteId};
use pass_desk::RingingDesk;
use replica::TakeFault;
use site_desk::Pass;
use site_journal::DeskFault;
use site_links::{LinkReceiver, LinkSender};
use site_threads::{TaskEnd, TaskOutput};
use std::alloc::Global;
use std::net::{Net, TcpListener, TcpStream};
use std::sync::Wait;
use std::thread;
use std::time::{Clock, Duration};
use stored_desk::{CommitFault, StepStore, StoredDesk, StoredLedger, StoredPort};
use stored_pass_desk::{StoredPassDesk, save_all};
use stored_threads::StoredTask;

// How often a site saves what nobody waits for, in milliseconds.
const SAVE_MILLIS: u64 = 50;

// What a thread of a site with a store does.
#[derive(Drop)]
pub(crate) enum StoredSiteTask {
    // A task that a site without a store has too.
    Serve(SiteTask),
    // It saves what nobody waits for, and ends the site if a site of the server has failed.
    Save,
}

// The tasks of a site with a store: one that saves, and then those of a site without a store, the last first. It fails only when out of
// memory, and drops them.
pub(crate) fn stored_tasks_of(
    alloc: Global,
    served: Vec<SiteTask>,
) -> Result<Vec<StoredSiteTask>, Memory>
    ensures { IfOk result (λ tasks. vec_len tasks ≡ vec_len served + 1) }
{
    let mut served = served;
    let mut tasks = match Vec::with_capacity(alloc, served.len() + 1) {
        Ok(tasks) => tasks,
        Err(_) => {
            drop(served);
            return Err(Memory);
        }
    };
    tasks.push_reserved(StoredSiteTask::Save);
    while let Some(task) = served.pop() {
        tasks.push_reserved(StoredSiteTask::Serve(task));
    }
    drop(served);
    Ok(tasks)
}

impl TaskOutput for StoredSiteTask {
    ghost use Rattle.std.specs.Prelude.{⊤};

    type Output = ();

    ghost gives = { λ task site names old output new. ⊤ };
}

// Answers the clients of a site by this pass, once it has taken or refused a frame of each peer, or after 4 seconds: if they know changes
// of the site that its store lacks, it mostly ends before it makes a change. It returns when the site takes no more clients or was stopped,
// as it is if a site of the server has failed. Each change rings the site's bell, and its reply leaves once its step is durable. The last
// such thread ends the bell. Gives the pass back.
fn answer_by<
    D: StepStore,
    L: StoredLedger,
    R: Net<Listener = TcpListener, Stream = TcpStream> + Wait + Clock,
>(rt: &R, alloc: Global, shared: &StoredSite, desk: &StoredDesk<D, L>, pass: Pass<L>) -> Pass<L>
    ensures { result.ordinal ≡ pass.ordinal }
{
    let site = &shared.site;
    shared.wait_for_peers(rt);
    if shared.has_failed() {
        site.clients.stop(rt);
    }
    let mut ringing = RingingDesk::new(StoredPassDesk::new(desk, pass), &site.bell);
    answer_over(rt, alloc, site, &mut ringing);
    ringing.into_inner().into_pass()
}

// Sends on these links by this pass what a site with a store does, and first a whole, until its bell has ended or its store has failed. The
// journal is kept within its limits.
fn send_by<D: StepStore, L: StoredLedger, R: Wait + Clock>(
    rt: &R,
    alloc: Global,
    site: &Site,
    desk: &StoredDesk<D, L>,
    pass: &mut Pass<L>,
    links: Vec<LinkSender>,
)
    ensures { pass.new.ordinal ≡ pass.old.ordinal }
{
    let port = StoredPort::new(desk, pass);
    send_news(rt, alloc, site, desk, port, links, true);
}

// Logs why a frame of a peer ends a site: the store of the site is older than what other sites know of it (`NotMine`), or a number was used
// twice, maybe another site's.
fn log_end<R: Wait>(rt: &R, alloc: Global, site: &Site, peer: SiteId, fault: TakeFault) {
    let (site_number, peer) = (site.number.number(), peer.number());
    let cause = match fault {
        TakeFault::NotMine => "rolled back: ",
        _ => "",
    };
    let line = format!(in alloc;
        "queue_sites: site {site_number}: ends: {cause}a frame of site {peer}: {fault}"
    );
    site.clients.events().add(rt, line);
}

// Takes the frames of a peer by this pass, until the link has ended, the site's store has failed, or a frame shows that the store lacks
// what the peer knows of the site, or that a number was used twice: that is logged, and all sites of the server end. The journal is kept
// within its limits. The link is given up at the end.
fn take_by<D: StepStore, L: StoredLedger, R: Wait>(
    rt: &R,
    alloc: Global,
    shared: &StoredSite,
    peer: SiteId,
    desk: &StoredDesk<D, L>,
    pass: &mut Pass<L>,
    link: LinkReceiver,
)
    ensures { pass.new.ordinal ≡ pass.old.ordinal }
{
    let site = &shared.site;
    let mut link = PeerLink::new(alloc, site, peer, link, Some(&shared.awaited));
    let port = StoredPort::new(desk, pass);
    take_news(rt, desk, port, &mut link);
    if let Some(DeskFault::Take(fault)) = link.ending {
        log_end(rt, alloc, site, peer, fault);
        shared.fail();
    }
    link.give_up(rt);
}

// Does a task of a site by this pass, which a site without a store has too, to its end. Gives the pass back.
fn serve_by<
    D: StepStore,
    L: StoredLedger,
    R: Net<Listener = TcpListener, Stream = TcpStream> + Wait + Clock,
>(
    rt: &R,
    alloc: Global,
    shared: &StoredSite,
    task: SiteTask,
    desk: &StoredDesk<D, L>,
    pass: Pass<L>,
) -> Pass<L>
    ensures { result.ordinal ≡ pass.ordinal }
{
    let mut pass = pass;
    match task {
        SiteTask::Answer => pass = answer_by(rt, alloc, shared, desk, pass),
        SiteTask::Send(links) => send_by(rt, alloc, &shared.site, desk, &mut pass, links),
        SiteTask::Take(peer, link) => take_by(rt, alloc, shared, peer, desk, &mut pass, link),
    }
    pass
}

// Logs why the store of a site has failed.
fn log_failure<R: Wait>(rt: &R, alloc: Global, site: &Site, fault: CommitFault) {
    let number = site.number.number();
    let line = format!(in alloc; "queue_sites: site {number}: store failed: {fault}");
    site.clients.events().add(rt, line);
}

// Saves what a site has done so far, and gives its store a new base if one is due. Returns why a step can't be saved, if one can't: a
// commit has failed, or (`Other`) it has another cause. `None` also if there was no memory: a later call does it.
fn failure<D: StepStore, L: StoredLedger, R: Wait>(
    rt: &R,
    desk: &StoredDesk<D, L>,
) -> Option<CommitFault> {
    match save_all(rt, desk) {
        Err(DeskFault::Unsaved) => Some(desk.fault(rt).unwrap_or(CommitFault::Other)),
        _ => desk.fault(rt),
    }
}

// Saves what a site does, 50 ms after the save before, until its other tasks have ended. If a step can't be saved it logs why, once, and
// all sites of the server end. If one has failed it stops this site's clients, after each save.
fn save_to_the_end<
    D: StepStore,
    L: StoredLedger,
    R: Net<Listener = TcpListener, Stream = TcpStream> + Wait + Clock,
>(rt: &R, alloc: Global, shared: &StoredSite, desk: &StoredDesk<D, L>) {
    let mut is_logged = false;
    for _ in rt.forever() {
        thread::sleep(rt, Duration::from_millis(SAVE_MILLIS));
        match failure(rt, desk) {
            Some(fault) if !is_logged => {
                log_failure(rt, alloc, &shared.site, fault);
                shared.fail();
                is_logged = true;
            }
            _ => {}
        }
        if shared.has_failed() {
            shared.site.clients.stop(rt);
        }
        if shared.has_ended() {
            return;
        }
    }
}

impl<R: Net<Listener = TcpListener, Stream = TcpStream> + Wait + Clock> StoredTask<StoredSite, R>
    for StoredSiteTask {
    // A task that has ended is noted as such, but the one that saves, which waits for the others.
    fn run<D: StepStore, L: StoredLedger>(
        self,
        rt: &R,
        alloc: Global,
        shared: &StoredSite,
        desk: &StoredDesk<D, L>,
        pass: Pass<L>,
    ) -> TaskEnd<L, ()> {
        let mut pass = pass;
        match self {
            StoredSiteTask::Serve(task) => {
                pass = serve_by(rt, alloc, shared, task, desk, pass);
                shared.end_task();
            }
            StoredSiteTask::Save => save_to_the_end(rt, alloc, shared, desk),
        }
        TaskEnd { pass, output: () }
    }
}
