//! The sites of a server, whose stores are files, or which store nothing.
ghost use Rattle.std.specs.Prelude.{◌≡◌, ◌↔◌, ◌+◌, ◌<◌, ◌≤◌, ℕ, IfErr, IsErrOf, OnErr};
ghost use Rattle.std.specs.Prelude.{OnOk, false, true};
ghost use Rattle.std.specs.Io.KnownBytes.{Appends};
ghost use Rattle.std.specs.declared.io.Error.{Error};
ghost use Rattle.ami_text.specs.Devices.{HasTaken};
ghost use Rattle.server.specs.Listening.{listening_lines};
ghost use Rattle.site_service.specs.Refusals.{IsRefusal};

use crate::starting::{open_stores, start_sites};
use crate::{ServiceFault, StorePath};
use ami_text::Sink;
use event_log::EventLog;
use replica::QueueList;
use server::{ServeSitesFault, serve_sites, serve_stored_sites};
use serving_clients::ServerSettings;
use site_files::StoreInFile;
use std::alloc::Global;
use std::net::{Net, TcpListener, TcpStream};
use std::sync::{Arc, Wait};
use std::thread::Threads;
use std::time::Clock;

/// Serves sites over their stores at once, as many as `settings` says, with the numbers 0, 1 and so on and the queues of `list`. The store
/// of site i is the file `FOLDER/site-i.db`. All stores are opened first, in order; a file that is missing is made. Once all are open the
/// row of this start is added to each, in order, and if `folder` says so the store keeps rows from then on. A new site's first start has a
/// line in `events`: `queue_sites: site 0: new store FOLDER/site-0.db`. The sites are then served as `serve_stored_sites` of `server` does.
///
/// It returns Ok when all sites have ended: each has taken as many connections as `sessions` says, or one has failed, and a line in
/// `events` says why.
///
/// Errors, in order: 1 `Store`, for the first store that gives no site, with its path and the cause, and `Memory`: no store has this start
/// (no contract says this); 2 `Store`, for the first start that can't be added, and `Memory`: those before stand, and this one may. The log
/// is as it was after both. 3 `Server`, with the errors of `serve_stored_sites`.
pub fn serve_site_files<
    R: Net<Listener = TcpListener, Stream = TcpStream> + Threads + Wait + Clock + Sync,
    D: StoreInFile + Send,
    W: Sink,
>(
    rt: &R,
    host: &HostRuntime,
    settings: &ServerSettings,
    list: &QueueList,
    folder: StorePath<'_>,
    sessions: Option<u32>,
    log: &mut W,
    events: &Arc<EventLog, Global>,
) -> Result<(), ServiceFault>
where
    D::Group: Send,
    D::Base: Send,
    requires log { W.failed log.old ≡ false }
    ensures written { OnOk result (Appends (W.taken log.old) (W.taken log.new)
        (listening_lines settings.now.address settings.now.port settings.now.sites)) }
    ensures refused { IfErr result (λ fault. IsRefusal fault → log.new ≡ log.old) }
    ensures port { (port : ℕ) (reason : Error)
        → IsErrOf result (ServiceFault.Server (ServeSitesFault.CannotListen port reason))
        → (settings.now.port ≤ port) × (port < settings.now.port + settings.now.sites) }
    ensures unwritten { (port : ℕ) (reason : Error)
        → IsErrOf result (ServiceFault.Server (ServeSitesFault.CannotListen port reason))
        → log.new ≡ log.old }
    ensures begun { OnErr result (HasTaken (W.taken log.old) (W.taken log.new)
        (listening_lines settings.now.address settings.now.port settings.now.sites)) }
    ensures write { IsErrOf result (ServiceFault.Server ServeSitesFault.Write)
        ↔ (W.failed log.new ≡ true) }
    ensures works { OnOk result (W.failed log.new ≡ false) }
{
    let stores = match open_stores::<D>(host, folder.path, settings, list) {
        Ok(stores) => stores,
        Err(fault) => return Err(fault),
    };
    let sites = match start_sites(rt, host.alloc(), stores, folder.keeps, events) {
        Ok(sites) => sites,
        Err(fault) => return Err(fault),
    };
    match serve_stored_sites::<R, D, W>(rt, host.alloc(), settings, sites, sessions, log, events) {
        Ok(ends) => {
            drop(ends);
            Ok(())
        }
        Err(fault) => Err(ServiceFault::Server(fault)),
    }
}

/// Serves new sites at once, which store nothing, as `serve_sites` of `server` does, and drops their journals in the end.
///
/// It returns Ok when each site has taken as many connections as `sessions` says; without a number it runs until the program is stopped.
///
/// Errors: `Server`, with those of `serve_sites`.
pub fn serve_new_sites<
    R: Net<Listener = TcpListener, Stream = TcpStream> + Threads + Wait + Clock + Sync,
    W: Sink,
>(
    rt: &R,
    alloc: Global,
    settings: &ServerSettings,
    list: &QueueList,
    sessions: Option<u32>,
    log: &mut W,
    events: &Arc<EventLog, Global>,
) -> Result<(), ServiceFault>
    requires log { W.failed log.old ≡ false }
    ensures written { OnOk result (Appends (W.taken log.old) (W.taken log.new)
        (listening_lines settings.now.address settings.now.port settings.now.sites)) }
    ensures kind { IfErr result (λ fault. (cause : ServeSitesFault)
        × (fault ≡ ServiceFault.Server cause)) }
    ensures port { (port : ℕ) (reason : Error)
        → IsErrOf result (ServiceFault.Server (ServeSitesFault.CannotListen port reason))
        → (settings.now.port ≤ port) × (port < settings.now.port + settings.now.sites) }
    ensures unwritten { (port : ℕ) (reason : Error)
        → IsErrOf result (ServiceFault.Server (ServeSitesFault.CannotListen port reason))
        → log.new ≡ log.old }
    ensures no_thread { IsErrOf result (ServiceFault.Server ServeSitesFault.NoThread)
        → Appends (W.taken log.old) (W.taken log.new)
        (listening_lines settings.now.address settings.now.port settings.now.sites) }
    ensures begun { OnErr result (HasTaken (W.taken log.old) (W.taken log.new)
        (listening_lines settings.now.address settings.now.port settings.now.sites)) }
    ensures write { IsErrOf result (ServiceFault.Server ServeSitesFault.Write)
        ↔ (W.failed log.new ≡ true) }
    ensures works { OnOk result (W.failed log.new ≡ false) }
{
    match serve_sites(rt, alloc, settings, list, sessions, log, events) {
        Ok(ends) => {
            drop(ends);
            Ok(())
        }
        Err(fault) => Err(ServiceFault::Server(fault)),
    }
}
