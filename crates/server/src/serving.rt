//! All sites: the replicas that they begin with, and the journals that they end with.
ghost use Rattle.std.specs.Prelude.{◌≡◌, ◌↔◌, ◌+◌, ◌<◌, ◌≤◌, ℕ, IfOk, IsErrOf, OnErr, OnOk, Some};
ghost use Rattle.std.specs.Prelude.{false, slice_get, true, vec_len};
ghost use Rattle.std.specs.Io.KnownBytes.{Appends};
ghost use Rattle.std.specs.declared.io.Error.{Error};
ghost use Rattle.ami_text.specs.Devices.{HasTaken};
ghost use Rattle.launcher.specs.Places.{AtEach};
ghost use Rattle.server.specs.Listening.{listening_lines};
ghost use Rattle.server.specs.ServedJournals.{IsServedJournal};
ghost use Rattle.server.specs.Tasks.{IsNewSite};

use crate::ServeSitesFault;
use crate::preparing::{insert_first, prepare_sites};
use crate::ready_site::ReadySite;
use crate::site::{JOURNAL_STEPS, Site};
use crate::working::SiteTask;
use ami_text::Sink;
use dots::Memory;
use event_log::EventLog;
use replica::{QueueList, Replica};
use serving_clients::ServerSettings;
use site_threads::{SiteOutput, SiteTasks, run_sites};
use std::alloc::Global;
use std::net::{Net, TcpListener, TcpStream};
use std::sync::{Arc, Wait};
use std::thread::Threads;
use std::time::Clock;

// A new site with the queues of `list`, and with what is ready for it. It fails only when out of memory, and drops that.
fn new_site(
    alloc: Global,
    list: &QueueList,
    ready: ReadySite,
) -> Result<SiteTasks<Site, SiteTask>, Memory>
    ensures { IfOk result (IsNewSite list.now ready) }
{
    let Ok(queues) = list.copy() else {
        drop(ready);
        return Err(Memory);
    };
    let ReadySite { shared, tasks } = ready;
    Ok(SiteTasks {
        replica: Replica::new(alloc, shared.number, queues),
        shared,
        tasks,
    })
}

// New sites with the queues of `list`, each with what is ready at its place. It fails only when out of memory, and drops all.
fn new_sites(
    alloc: Global,
    list: &QueueList,
    ready: Vec<ReadySite>,
) -> Result<Vec<SiteTasks<Site, SiteTask>>, Memory>
    ensures number { IfOk result (λ sites. vec_len sites ≡ vec_len ready) }
    ensures each { IfOk result (λ sites.
        AtEach (λ place site. (own : _) × (slice_get ready.items place ≡ Some own)
        × IsNewSite list.now own site) sites.items) }
{
    let mut ready = ready;
    let mut sites = match Vec::with_capacity(alloc, ready.len()) {
        Ok(sites) => sites,
        Err(_) => {
            drop(ready);
            return Err(Memory);
        }
    };
    while let Some(own) = ready.pop() {
        match new_site(alloc, list, own) {
            Ok(site) => insert_first(&mut sites, site),
            Err(_) => {
                drop(ready);
                drop(sites);
                return Err(Memory);
            }
        }
    }
    drop(ready);
    Ok(sites)
}

/// Serves sites at once, as many as `settings` says, with the numbers 0, 1 and so on and the queues of `list`, each at its own port. A site
/// answers as many clients at once as it has places; further ones wait, in order. Each change rings the site's bell, and the site then sends
/// its changes to the others. A site that can't take a frame of another one takes a whole of it later. The steps of a site's journal are
/// dropped when there are 1,000, and when they keep more than 64 MiB: that is checked before each cut and each take. With a number of
/// `sessions` each site takes that many connections, answers them, and ends with its journal. Without it the call runs until the program is
/// stopped.
///
/// Once all sites listen the log has a line for each in their order, as `listening 127.0.0.1:5038`, and nothing more. What happens to
/// clients is added to `events`, and a line when a site falls behind another one, or has caught up with it.
///
/// Errors, in order: 1 `CannotListen`, with the first port that a site can't listen on and the system's reason, and the log as it was; 2
/// `Write`, if the log failed, or took no bytes; 3 `NoThread`, if a thread can't start: no client is answered, and the log has all lines; 4
/// `Memory`, which may stand in place of each: no client is answered, and the log has a prefix of the lines. (Sessions are Asterisk's
/// Manager Interface; how sites are served is this project's own.)
pub fn serve_sites<
    R: Net<Listener = TcpListener, Stream = TcpStream> + Threads + Wait + Clock + Sync,
    W: Sink,
>(
    rt: &R,
    alloc: Global,
    settings: &ServerSettings,
    list: &QueueList,
    sessions: Option<u32>,
    log: &mut W,
    events: &Arc<EventLog, Global>,
) -> Result<Vec<SiteOutput<()>>, ServeSitesFault>
    requires log { W.failed log.old ≡ false }
    ensures number { IfOk result (λ ends. vec_len ends ≡ settings.now.sites) }

    // The outputs stand in the order of their sites.
    ensures each { IfOk result (λ ends.
        AtEach (λ site end. IsServedJournal site list.now end.journal) ends.items) }
    ensures written { OnOk result (Appends (W.taken log.old) (W.taken log.new)
        (listening_lines settings.now.address settings.now.port settings.now.sites)) }
    ensures port { (port : ℕ) (reason : Error)
        → IsErrOf result (ServeSitesFault.CannotListen port reason)
        → (settings.now.port ≤ port) × (port < settings.now.port + settings.now.sites) }
    ensures unwritten { (port : ℕ) (reason : Error)
        → IsErrOf result (ServeSitesFault.CannotListen port reason) → log.new ≡ log.old }
    ensures no_thread { IsErrOf result ServeSitesFault.NoThread
        → Appends (W.taken log.old) (W.taken log.new)
        (listening_lines settings.now.address settings.now.port settings.now.sites) }
    ensures begun { OnErr result (HasTaken (W.taken log.old) (W.taken log.new)
        (listening_lines settings.now.address settings.now.port settings.now.sites)) }
    ensures write { IsErrOf result ServeSitesFault.Write ↔ (W.failed log.new ≡ true) }
    ensures works { OnOk result (W.failed log.new ≡ false) }
{
    let ready = prepare_sites(rt, alloc, settings, sessions, log, events)?;
    let sites = new_sites(alloc, list, ready)?;
    let ends = run_sites(rt, alloc, JOURNAL_STEPS, sites)?;
    Ok(ends)
}
