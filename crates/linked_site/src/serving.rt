//! A linked site without a store.
ghost use Rattle.std.specs.Prelude.{◌≡◌, ℕ, IfOk, List, Some, slice_get, vec_len};
ghost use Rattle.replica.specs.Deeds.{IsNew};
ghost use Rattle.site_peers.specs.Links.{links_card};
ghost use Rattle.linked_site.specs.Cards.{card_of};
ghost use Rattle.linked_site.specs.LinkedJournals.{IsLinkedJournal, IsOfNewSite};

use crate::linked_site::LinkedSite;
use crate::site_end::reason_of;
use crate::tasks::{LinkedTask, tasks_of};
use crate::{LinkSettings, LinkedSiteFault, SiteEnd};
use dots::SiteId;
use replica::{QueueList, Replica};
use serving_clients::ClientSettings;
use site_peers::EndReason;
use site_threads::{SiteOutput, SiteTasks, run_sites};
use std::alloc::Global;
use std::net::{Net, TcpListener, TcpStream};
use std::random::RandomSource;
use std::sync::Wait;
use std::thread::Threads;
use std::time::Clock;

/// The number of steps that the journal of a linked site holds at most.
pub const JOURNAL_STEPS: u32 = 1_000;

// What the one site has ended with that was launched.
fn end_of(ends: Vec<SiteOutput<Option<EndReason>>>) -> SiteEnd
    requires { vec_len ends ≡ 1 }
    ensures { (end : _) → slice_get ends.items 0 ≡ Some end → result.journal ≡ end.journal }
{
    let mut ends = ends;
    let Some(end) = ends.pop() else {
        unreachable!();
    };
    drop(ends);
    let SiteOutput { journal, outputs } = end;
    let reason = reason_of(outputs.as_slice());
    drop(outputs);
    SiteEnd { reason, journal }
}

// Runs a site until it ends. Errors: `NoThread`, `Memory`; the site is dropped, and no task has begun.
fn run_site<
    R: Net<Listener = TcpListener, Stream = TcpStream>
        + Threads
        + Wait
        + Clock
        + RandomSource
        + Sync,
>(
    rt: &R,
    alloc: Global,
    site: SiteTasks<LinkedSite, LinkedTask>,
) -> Result<SiteEnd, LinkedSiteFault>
    ensures { IfOk result (λ end. IsLinkedJournal site.replica end.journal) }
{
    let mut sites = match Vec::with_capacity(alloc, 1) {
        Ok(sites) => sites,
        Err(_) => {
            drop(site);
            return Err(LinkedSiteFault::Memory);
        }
    };
    sites.push_reserved(site);
    match run_sites(rt, alloc, JOURNAL_STEPS, sites) {
        Ok(ends) => Ok(end_of(ends)),
        Err(fault) => Err(LinkedSiteFault::from(fault)),
    }
}

// What a new site of this number is launched with. Errors, in order: those of `LinkedSite::new`; `Memory`. All is dropped then.
fn new_site_of<R: RandomSource>(
    rt: &R,
    alloc: Global,
    settings: &ClientSettings<'_>,
    links: LinkSettings,
    site: SiteId,
    list: &QueueList,
    clients: TcpListener,
    heard: TcpListener,
) -> Result<SiteTasks<LinkedSite, LinkedTask>, LinkedSiteFault>
    ensures site { IfOk result (λ new. new.replica.site ≡ site) }
    ensures names { IfOk result (λ new. new.replica.names ≡ list.now) }
    ensures new { IfOk result (λ new. IsNew new.replica) }
    // The site shows its own number and queues.
    ensures card { IfOk result (λ new. (process : List ℕ)
        × (links_card new.shared.links ≡ card_of site list.now links process)) }
{
    let peers = links.peers.len();
    let shared = LinkedSite::new(rt, alloc, settings, links, site, list, clients, heard)?;
    let tasks = match tasks_of(alloc, settings.session.places, peers, false) {
        Ok(tasks) => tasks,
        Err(_) => {
            drop(shared);
            return Err(LinkedSiteFault::Memory);
        }
    };
    match list.copy() {
        Ok(list) => Ok(SiteTasks {
            replica: Replica::new(alloc, site, list),
            shared,
            tasks,
        }),
        Err(_) => {
            drop(shared);
            drop(tasks);
            Err(LinkedSiteFault::Memory)
        }
    }
}

/// Serves Manager clients of a new site at one listener, and links it to the sites of other processes: it accepts their links at the other
/// listener, and dials each peer. At most `settings.session.places` clients are answered at once; further ones wait, in order. Each change
/// rings the site's bell, and the site then sends its changes to all peers that are connected. Each peer gets a frame of all that the site
/// knows when it connects. The steps of the site's journal are dropped when there are 1,000, and when they keep more than 64 MiB.
///
/// It returns when the site has ended. `TakenNumber`, `OlderCopy`, `SecondCopy`: another site has refused it so. `NotMine`: another site
/// has sent a frame that this site refuses so. `Conflict`: it has refused the last frames of more sites than half as many as it dials so.
/// `Asked`: it has taken `settings.connections` connections of clients, and answered them. The reason is logged in one line, and sessions
/// that go on are cut off. What happens to clients and links is added to `settings.events`.
///
/// Errors, in order: 1 `NoRandom`, if the system gives no random bytes, by which others know its process; 2 `NoAddress`, if it doesn't say
/// at which address links are accepted; 3 `NoThread`, if a thread can't start; 4 `Memory`, which may stand in place of 3. No client is
/// answered then, and no peer is dialed. (Sessions are Asterisk's Manager Interface; how sites are linked is this project's own.)
pub fn serve_linked_site<
    R: Net<Listener = TcpListener, Stream = TcpStream>
        + Threads
        + Wait
        + Clock
        + RandomSource
        + Sync,
>(
    rt: &R,
    alloc: Global,
    settings: &ClientSettings<'_>,
    links: LinkSettings,
    site: SiteId,
    list: &QueueList,
    clients: TcpListener,
    heard: TcpListener,
) -> Result<SiteEnd, LinkedSiteFault>
    ensures { IfOk result (λ end. IsOfNewSite site list.now end.journal) }
{
    let new = new_site_of(rt, alloc, settings, links, site, list, clients, heard)?;
    run_site(rt, alloc, new)
}
