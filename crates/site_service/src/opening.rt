//! Opens the store of a site, and starts the site.
ghost use Rattle.std.specs.Prelude.{◌≡◌, IfErr, IfOk, IsTrue};
ghost use Rattle.site_service.specs.Refusals.{IsRefusal};

use crate::{ServiceFault, StorePath};
use dots::SiteId;
use event_log::EventLog;
use replica::QueueList;
use site_files::{OpenFault, SiteFile, SiteFileFault, StoreInFile};
use std::alloc::Global;
use std::sync::Wait;

// How many steps of a store are in memory while it is opened.
const MOST_RESTORED_STEPS: u32 = 1_000;

// A store that is open, before a start of its site, and the path of its file.
#[derive(Drop)]
pub(crate) struct OpenedStore<F: Drop> {
    pub path: String,
    pub file: F,
}

// Logs that a site has a new store, at this path.
fn log_new<R: Wait>(rt: &R, alloc: Global, path: &str, site: SiteId, events: &EventLog) {
    let number = site.number();
    let line = format!(in alloc; "queue_sites: site {number}: new store {path}");
    events.add(rt, line);
}

// The fault of a store at a path that gives no site, for this cause: `Store`, or `Memory` if that is the cause.
fn refusal(path: String, fault: SiteFileFault) -> ServiceFault
    ensures kind { IsRefusal result }
    ensures cause { (at : _) (why : _) → result ≡ ServiceFault.Store at why → why ≡ fault }
    ensures path { (at : _) (why : _) → result ≡ ServiceFault.Store at why → at ≡ path }
{
    if let SiteFileFault::Open(OpenFault::Memory) = fault {
        drop(path);
        return ServiceFault::Memory;
    }
    ServiceFault::Store(path, fault)
}

// The store in the file at a path, whose site has this number and these queues. If the file is missing it is made. Errors: `Store`, with
// the path and the cause; `Memory`.
pub(crate) fn open_store<D: StoreInFile>(
    host: &HostRuntime,
    path: String,
    site: SiteId,
    list: &QueueList,
) -> Result<OpenedStore<D::Restored>, ServiceFault>
    ensures site { IfOk result (λ it. (D.restored_site it.file).site ≡ site) }
    ensures names { IfOk result (λ it. (D.restored_site it.file).names ≡ list.now) }
    ensures restored { IfOk result (λ it. D.is_restored it.file) }
    ensures path { IfOk result (λ it. it.path ≡ path) }
    ensures fault { IfErr result IsRefusal }
{
    match D::open_site(host, path.as_str(), site, list, MOST_RESTORED_STEPS) {
        Ok(file) => Ok(OpenedStore { path, file }),
        Err(fault) => Err(refusal(path, fault)),
    }
}

// A start of the site of an open store. If `keeps`, the store keeps rows. A new site's first start is logged. Errors: `Store`, with the
// path and the cause; `Memory`.
pub(crate) fn start_opened<D: StoreInFile, R: Wait>(
    rt: &R,
    alloc: Global,
    opened: OpenedStore<D::Restored>,
    keeps: bool,
    events: &EventLog,
) -> Result<SiteFile<D>, ServiceFault>
    requires restored { D.is_restored opened.file }
    ensures replica { IfOk result (λ it. it.resumed.replica ≡ D.restored_site opened.file) }
    ensures name { IfOk result (λ it. it.name ≡ D.name it.resumed.store) }
    ensures starts { IfOk result (λ it. it.starts ≡ D.starts it.resumed.store) }
    ensures kept { IfOk result (λ it. IsTrue keeps → D.keeps_rows it.resumed.store) }
    ensures fault { IfErr result IsRefusal }
{
    let OpenedStore { path, file } = opened;
    match D::resume_site(file, keeps) {
        Ok(site) => {
            if site.is_new {
                log_new(rt, alloc, path.as_str(), site.resumed.site(), events);
            }
            drop(path);
            Ok(site)
        }
        Err(fault) => Err(refusal(path, SiteFileFault::Open(fault))),
    }
}

// The site whose store is this file, for a start of it: as `open_store` and then `start_opened`, with their errors.
pub(crate) fn start_site<D: StoreInFile, R: Wait>(
    rt: &R,
    host: &HostRuntime,
    place: StorePath<'_>,
    site: SiteId,
    list: &QueueList,
    events: &EventLog,
) -> Result<SiteFile<D>, ServiceFault>
    ensures site { IfOk result (λ it. it.resumed.replica.site ≡ site) }
    ensures names { IfOk result (λ it. it.resumed.replica.names ≡ list.now) }
    ensures name { IfOk result (λ it. it.name ≡ D.name it.resumed.store) }
    ensures starts { IfOk result (λ it. it.starts ≡ D.starts it.resumed.store) }
    ensures kept { IfOk result (λ it.
        IsTrue place.entry.keeps → D.keeps_rows it.resumed.store) }
    ensures fault { IfErr result IsRefusal }
{
    let Ok(path) = String::from_str(host.alloc(), place.path) else {
        return Err(ServiceFault::Memory);
    };
    let opened = open_store::<D>(host, path, site, list)?;
    start_opened(rt, host.alloc(), opened, place.keeps, events)
}
