//! All sites with stores: what each begins with and has to do, and what they end with.
ghost use Rattle.std.specs.Prelude.{◌≡◌, ◌↔◌, ◌+◌, ◌<◌, ◌≤◌, ℕ, IfOk, IsErrOf, OnErr, OnOk};
ghost use Rattle.std.specs.Prelude.{false, true, vec_len};
ghost use Rattle.std.specs.Io.KnownBytes.{Appends};
ghost use Rattle.std.specs.declared.io.Error.{Error};
ghost use Rattle.ami_text.specs.Devices.{HasTaken};
ghost use Rattle.launcher.specs.Places.{AtEach};
ghost use Rattle.server.specs.Listening.{listening_lines};
ghost use Rattle.server.specs.ServedStores.{HaveServedEnds, IsAtItsPlace};

use crate::ServeSitesFault;
use crate::preparing::{insert_first, prepare_sites};
use crate::ready_site::ReadySite;
use crate::site::JOURNAL_STEPS;
use crate::stored_site::StoredSite;
use crate::stored_working::{StoredSiteTask, stored_tasks_of};
use ami_text::Sink;
use dots::Memory;
use event_log::EventLog;
use serving_clients::ServerSettings;
use std::alloc::Global;
use std::net::{Net, TcpListener, TcpStream};
use std::sync::atomic::{AtomicBool, AtomicU64};
use std::sync::{Arc, Wait};
use std::thread::Threads;
use std::time::Clock;
use stored_desk::StepStore;
use stored_threads::{ResumedSite, StoredSiteOutput, StoredSiteTasks, run_stored_sites};

// What a site over its store is launched with, for which `ready` is ready. Its tasks are those of a site without a store, and one that
// saves. It waits for a first frame of each peer. It fails when out of memory, or if `has_failed` has too many handles, and drops all.
fn stored_site_of<D: StepStore>(
    alloc: Global,
    resumed: ResumedSite<D>,
    ready: ReadySite,
    has_failed: &Arc<AtomicBool, Global>,
) -> Result<StoredSiteTasks<D, StoredSite, StoredSiteTask>, Memory>
    ensures { IfOk result (λ site. site.resumed ≡ resumed) }
{
    let ReadySite {
        shared: site,
        tasks: served,
    } = ready;
    let running = served.len() as u64;
    let awaited = site.peers() as u64;
    let Ok(has_failed) = Arc::try_clone(has_failed) else {
        drop(resumed);
        drop(site);
        drop(served);
        return Err(Memory);
    };
    let Ok(tasks) = stored_tasks_of(alloc, served) else {
        drop(resumed);
        drop(site);
        drop(has_failed);
        return Err(Memory);
    };
    let shared = StoredSite {
        site,
        running: AtomicU64::new(running),
        awaited: AtomicU64::new(awaited),
        has_failed,
    };
    Ok(StoredSiteTasks {
        resumed,
        shared,
        tasks,
    })
}

// What the sites are launched with, each with what is ready at its place: there are as many of both. All sites share whether one has
// failed; none has yet. It fails only when out of memory, and drops all.
fn stored_sites_of<D: StepStore>(
    alloc: Global,
    resumed: Vec<ResumedSite<D>>,
    ready: Vec<ReadySite>,
) -> Result<Vec<StoredSiteTasks<D, StoredSite, StoredSiteTask>>, Memory>
    requires { vec_len resumed ≡ vec_len ready }
    ensures number { IfOk result (λ sites. vec_len sites ≡ vec_len resumed) }
    ensures each { IfOk result (λ sites.
        AtEach (λ place site. IsAtItsPlace resumed.items place site) sites.items) }
{
    let mut resumed = resumed;
    let mut ready = ready;
    let Ok(has_failed) = Arc::new(alloc, AtomicBool::new(false)) else {
        drop(resumed);
        drop(ready);
        return Err(Memory);
    };
    let mut sites = match Vec::with_capacity(alloc, resumed.len()) {
        Ok(sites) => sites,
        Err(_) => {
            drop(has_failed);
            drop(resumed);
            drop(ready);
            return Err(Memory);
        }
    };
    while let Some(site) = resumed.pop() {
        let Some(own) = ready.pop() else {
            unreachable!();
        };
        match stored_site_of(alloc, site, own, &has_failed) {
            Ok(site) => insert_first(&mut sites, site),
            Err(_) => {
                drop(has_failed);
                drop(resumed);
                drop(ready);
                drop(sites);
                return Err(Memory);
            }
        }
    }
    drop(has_failed);
    drop(resumed);
    drop(ready);
    Ok(sites)
}

/// Serves sites with stores at once, as many as `settings` says: those of `resumed`, in the order of their numbers 0, 1 and so on. It
/// serves clients as `serve_sites` does, but no reply and no frame leaves a site before its step is in the site's store. When it begins,
/// each site sends all that it knows to the others, since a frame of before may not have been sent. A site answers clients once it has
/// taken or refused a frame of each other one, or after 4 seconds.
///
/// What nobody waits for is saved 50 ms after the save before. A store that has more than 10,000 rows or 64 MiB beside its base gets a new
/// base. Once a site has ended, all its steps are in its store, unless a commit has failed.
///
/// If a commit of a store fails, the sessions of its site end without a reply, a line in `events` says why, as `queue_sites: site 0: store
/// failed: disk full`, and all sites end. The site's output then has the fault. All sites also end if a site refuses a frame since the
/// store of a site is older than what other sites know of that site, or since a number was used twice; a line says so, as `queue_sites:
/// site 0: ends: rolled back: a frame of site 1: not this site's own` or `.. ends: a frame of site 1: conflict`. So without a number of
/// `sessions` the call returns only if a site has failed.
///
/// Once all sites listen the log has a line for each, as of `serve_sites`. Errors are those of `serve_sites`, in its order, and the stores
/// are dropped.
pub fn serve_stored_sites<
    R: Net<Listener = TcpListener, Stream = TcpStream> + Threads + Wait + Clock + Sync,
    D: StepStore + Send,
    W: Sink,
>(
    rt: &R,
    alloc: Global,
    settings: &ServerSettings,
    resumed: Vec<ResumedSite<D>>,
    sessions: Option<u32>,
    log: &mut W,
    events: &Arc<EventLog, Global>,
) -> Result<Vec<StoredSiteOutput<D, ()>>, ServeSitesFault>
where
    D::Group: Send,
    D::Base: Send,
    requires number { vec_len resumed ≡ settings.now.sites }
    requires log { W.failed log.old ≡ false }
    ensures number { IfOk result (λ ends. vec_len ends ≡ settings.now.sites) }
    // The outputs stand in the order of the sites.
    ensures each { IfOk result (λ ends.
        HaveServedEnds D.holds D.keeps D.begun resumed.items ends.items) }
    ensures written { OnOk result (Appends (W.taken log.old) (W.taken log.new)
        (listening_lines settings.now.address settings.now.port settings.now.sites)) }
    ensures port { (port : ℕ) (reason : Error)
        → IsErrOf result (ServeSitesFault.CannotListen port reason)
        → (settings.now.port ≤ port) × (port < settings.now.port + settings.now.sites) }
    ensures unwritten { (port : ℕ) (reason : Error)
        → IsErrOf result (ServeSitesFault.CannotListen port reason) → log.new ≡ log.old }
    ensures no_thread { IsErrOf result ServeSitesFault.NoThread
        → Appends (W.taken log.old) (W.taken log.new)
        (listening_lines settings.now.address settings.now.port settings.now.sites) }
    ensures begun { OnErr result (HasTaken (W.taken log.old) (W.taken log.new)
        (listening_lines settings.now.address settings.now.port settings.now.sites)) }
    ensures write { IsErrOf result ServeSitesFault.Write ↔ (W.failed log.new ≡ true) }
    ensures works { OnOk result (W.failed log.new ≡ false) }
{
    let ready = match prepare_sites(rt, alloc, settings, sessions, log, events) {
        Ok(ready) => ready,
        Err(fault) => {
            drop(resumed);
            return Err(fault);
        }
    };
    let sites = stored_sites_of(alloc, resumed, ready)?;
    let ends = run_stored_sites(rt, alloc, JOURNAL_STEPS, sites)?;
    Ok(ends)
}
