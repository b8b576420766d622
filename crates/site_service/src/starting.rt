//! Opens the stores of all sites in a folder, and then starts the sites.
ghost use Rattle.std.specs.List.{All};
ghost use Rattle.std.specs.Prelude.{◌≡◌, ◌++◌, IfErr, IfOk, IsTrue, codes, decimal, map};
ghost use Rattle.std.specs.Prelude.{string_bytes, vec_len};
ghost use Rattle.std.specs.VecDeque.{deque_len};
ghost use Rattle.launcher.specs.Places.{AtEach};
ghost use Rattle.site_service.specs.Refusals.{IsRefusal};

use crate::ServiceFault;
use crate::opening::{OpenedStore, open_store, start_opened};
use dots::SiteId;
use event_log::EventLog;
use replica::QueueList;
use server::ResumedSite;
use serving_clients::ServerSettings;
use site_files::{StoreInFile, file_of_site};
use std::alloc::Global;
use std::collections::VecDeque;
use std::sync::Wait;

// The store of the site of this number in a folder. Errors: `Memory`; those of `open_store`.
fn open_in_folder<D: StoreInFile>(
    host: &HostRuntime,
    folder: &str,
    site: SiteId,
    list: &QueueList,
) -> Result<OpenedStore<D::Restored>, ServiceFault>
    ensures site { IfOk result (λ it. (D.restored_site it.file).site ≡ site) }
    ensures names { IfOk result (λ it. (D.restored_site it.file).names ≡ list.now) }
    ensures restored { IfOk result (λ it. D.is_restored it.file) }
    ensures path { IfOk result (λ it. string_bytes it.path
        ≡ folder.now ++ (codes "/site-" ++ (decimal site ++ codes ".db"))) }
    ensures fault { IfErr result IsRefusal }
{
    match file_of_site(host.alloc(), folder, site) {
        Ok(path) => open_store::<D>(host, path, site, list),
        Err(_) => Err(ServiceFault::Memory),
    }
}

// The stores of a server's sites in a folder, in the order of their numbers. No start is added to any. Error: `Memory`, or the first of a
// store. The stores that were opened are closed then, and new ones stay.
pub(crate) fn open_stores<D: StoreInFile>(
    host: &HostRuntime,
    folder: &str,
    settings: &ServerSettings,
    list: &QueueList,
) -> Result<VecDeque<OpenedStore<D::Restored>>, ServiceFault>
    ensures number { IfOk result (λ stores. deque_len stores ≡ settings.now.sites) }
    ensures sites { IfOk result (λ stores.
        AtEach (λ place it. (D.restored_site it.file).site ≡ place) stores.items) }
    ensures names { IfOk result (λ stores.
        All (λ it. (D.restored_site it.file).names ≡ list.now) stores.items) }
    ensures restored { IfOk result (λ stores.
        All (λ it. D.is_restored it.file) stores.items) }
    ensures fault { IfErr result IsRefusal }
{
    let sites = usize::from(settings.sites);
    let mut stores = match VecDeque::with_capacity(host.alloc(), sites) {
        Ok(stores) => stores,
        Err(_) => return Err(ServiceFault::Memory),
    };
    for number in 0..settings.sites {
        let Some(site) = SiteId::new(number) else {
            unreachable!();
        };
        match open_in_folder::<D>(host, folder, site, list) {
            Ok(store) => stores.push_back_reserved(store),
            Err(fault) => {
                drop(stores);
                return Err(fault);
            }
        }
    }
    Ok(stores)
}

// A start of the site of each open store, in their order. If `keeps`, the stores keep rows. Error: `Memory`, or the first of a start. All
// stores are closed then; the rows of the starts before stand, and that of this one may.
pub(crate) fn start_sites<D: StoreInFile, R: Wait>(
    rt: &R,
    alloc: Global,
    stores: VecDeque<OpenedStore<D::Restored>>,
    keeps: bool,
    events: &EventLog,
) -> Result<Vec<ResumedSite<D>>, ServiceFault>
    requires restored { All (λ it. D.is_restored it.file) stores.items }
    ensures number { IfOk result (λ sites. vec_len sites ≡ deque_len stores) }
    ensures sites { IfOk result (λ sites. map (λ it. it.replica) sites.items
        ≡ map (λ it. D.restored_site it.file) stores.items) }
    ensures kept { IfOk result (λ sites.
        All (λ it. IsTrue keeps → D.keeps_rows it.store) sites.items) }
    ensures fault { IfErr result IsRefusal }
{
    let mut stores = stores;
    let mut sites = match Vec::with_capacity(alloc, stores.len()) {
        Ok(sites) => sites,
        Err(_) => {
            drop(stores);
            return Err(ServiceFault::Memory);
        }
    };
    while let Some(opened) = stores.pop_front() {
        match start_opened(rt, alloc, opened, keeps, events) {
            Ok(site) => sites.push_reserved(site.resumed),
            Err(fault) => {
                drop(stores);
                drop(sites);
                return Err(fault);
            }
        }
    }
    drop(stores);
    Ok(sites)
}
