//! A linked site with a store.
ghost use Rattle.std.specs.Prelude.{◌≡◌, ℕ, IfOk, IfSome, List, None, Some, slice_get};
ghost use Rattle.std.specs.Prelude.{vec_len};
ghost use Rattle.site_peers.specs.Links.{links_card};
ghost use Rattle.stored_threads.specs.StoredEnds.{IsStoreOf};
ghost use Rattle.linked_site.specs.Cards.{card_of};
ghost use Rattle.linked_site.specs.LinkedJournals.{IsLinkedJournal};

use crate::linked_site::LinkedSite;
use crate::site_end::reason_of;
use crate::tasks::{LinkedTask, tasks_of};
use crate::{JOURNAL_STEPS, LinkSettings, LinkedSiteFault, StoredSiteEnd};
use serving_clients::ClientSettings;
use site_peers::EndReason;
use std::alloc::Global;
use std::net::{Net, TcpListener, TcpStream};
use std::random::RandomSource;
use std::sync::Wait;
use std::thread::Threads;
use std::time::Clock;
use stored_desk::{CommitFault, StepStore};
use stored_threads::{ResumedSite, StoredSiteOutput, StoredSiteTasks, run_stored_sites};

// What the one site has ended with that was launched.
fn end_of<D: StepStore>(ends: Vec<StoredSiteOutput<D, Option<EndReason>>>) -> StoredSiteEnd<D>
    requires { vec_len ends ≡ 1 }
    ensures journal { (end : _) → slice_get ends.items 0 ≡ Some end
        → result.journal ≡ end.journal }
    ensures store { (end : _) → slice_get ends.items 0 ≡ Some end → result.store ≡ end.store }
    ensures fault { (end : _) → slice_get ends.items 0 ≡ Some end → result.fault ≡ end.fault }
{
    let mut ends = ends;
    let Some(end) = ends.pop() else {
        unreachable!();
    };
    drop(ends);
    let StoredSiteOutput {
        journal,
        outputs,
        store,
        fault,
    } = end;
    let reason = reason_of(outputs.as_slice());
    drop(outputs);
    StoredSiteEnd {
        reason,
        journal,
        store,
        fault,
    }
}

// Runs a site over its store until it ends. Errors: `NoThread`, `Memory`; the store is dropped, and no task has begun.
fn run_site<
    R: Net<Listener = TcpListener, Stream = TcpStream>
        + Threads
        + Wait
        + Clock
        + RandomSource
        + Sync,
    D: StepStore + Send,
>(
    rt: &R,
    alloc: Global,
    site: StoredSiteTasks<D, LinkedSite, LinkedTask>,
) -> Result<StoredSiteEnd<D>, LinkedSiteFault>
where
    D::Group: Send,
    D::Base: Send,
    ensures journal { IfOk result (λ end. IsLinkedJournal site.resumed.replica end.journal) }
    ensures stored { IfOk result (λ end. IfSome end.store (λ store.
        IsStoreOf D.holds D.keeps D.begun site.resumed.replica end.fault store)) }
    ensures lost { IfOk result (λ end. end.store ≡ None
        → end.fault ≡ Some CommitFault.Other) }
{
    let mut sites = match Vec::with_capacity(alloc, 1) {
        Ok(sites) => sites,
        Err(_) => {
            drop(site);
            return Err(LinkedSiteFault::Memory);
        }
    };
    sites.push_reserved(site);
    match run_stored_sites(rt, alloc, JOURNAL_STEPS, sites) {
        Ok(ends) => Ok(end_of(ends)),
        Err(fault) => Err(LinkedSiteFault::from(fault)),
    }
}

// What a site over its store is launched with. Errors, in order: those of `LinkedSite::new`; `Memory`. All is dropped then.
fn site_of<R: RandomSource, D: StepStore>(
    rt: &R,
    alloc: Global,
    settings: &ClientSettings<'_>,
    links: LinkSettings,
    resumed: ResumedSite<D>,
    clients: TcpListener,
    heard: TcpListener,
) -> Result<StoredSiteTasks<D, LinkedSite, LinkedTask>, LinkedSiteFault>
    ensures resumed { IfOk result (λ site. site.resumed ≡ resumed) }
    // The site shows its own number and queues.
    ensures card { IfOk result (λ site. (process : List ℕ)
        × (links_card site.shared.links
        ≡ card_of resumed.replica.site resumed.replica.names links process)) }
{
    let peers = links.peers.len();
    let (site, list) = (resumed.site(), resumed.list());
    let shared = match LinkedSite::new(rt, alloc, settings, links, site, list, clients, heard) {
        Ok(shared) => shared,
        Err(fault) => {
            drop(resumed);
            return Err(fault);
        }
    };
    match tasks_of(alloc, settings.session.places, peers, true) {
        Ok(tasks) => Ok(StoredSiteTasks {
            resumed,
            shared,
            tasks,
        }),
        Err(_) => {
            drop(resumed);
            drop(shared);
            Err(LinkedSiteFault::Memory)
        }
    }
}

/// Serves a site that goes on over its store as `serve_linked_site` serves one without. Clients are answered once a frame of each peer was
/// taken, or after 4 seconds. No reply leaves before the step that it answers for is durable, and no frame before its cut is. What the site
/// takes from peers is saved 50 ms after the save before. Once the store has more than 10,000 rows or 64 MiB since its base, the site
/// becomes its base.
///
/// It returns when the site has ended: for one of the reasons of `serve_linked_site`, or as `StoreFailed`, since a commit has failed. Then
/// no further reply leaves, and two lines are logged, with the cause and the reason. Unless a commit has failed, all steps are saved before
/// it returns. Where the store doesn't come back the fault is `Other`.
///
/// Errors are those of `serve_linked_site`, and the store is dropped.
pub fn serve_stored_linked_site<
    R: Net<Listener = TcpListener, Stream = TcpStream>
        + Threads
        + Wait
        + Clock
        + RandomSource
        + Sync,
    D: StepStore + Send,
>(
    rt: &R,
    alloc: Global,
    settings: &ClientSettings<'_>,
    links: LinkSettings,
    resumed: ResumedSite<D>,
    clients: TcpListener,
    heard: TcpListener,
) -> Result<StoredSiteEnd<D>, LinkedSiteFault>
where
    D::Group: Send,
    D::Base: Send,
    ensures journal { IfOk result (λ end. IsLinkedJournal resumed.replica end.journal) }
    ensures stored { IfOk result (λ end. IfSome end.store (λ store.
        IsStoreOf D.holds D.keeps D.begun resumed.replica end.fault store)) }
    ensures lost { IfOk result (λ end. end.store ≡ None
        → end.fault ≡ Some CommitFault.Other) }
{
    let site = site_of(rt, alloc, settings, links, resumed, clients, heard)?;
    run_site(rt, alloc, site)
}
