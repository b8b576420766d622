//! What the sites of a server have before they are launched: each listens, and has its bell, its links and its tasks.
ghost use Rattle.std.specs.Prelude.{◌≡◌, ◌≢◌, ◌↔◌, ◌+◌, ◌<◌, ◌≤◌, ℕ, IfErr, IfOk, IsErrOf, OnErr};
ghost use Rattle.std.specs.Prelude.{OnOk, false, insert, length, true, vec_capacity, vec_len};
ghost use Rattle.std.specs.Io.KnownBytes.{Appends};
ghost use Rattle.std.specs.declared.io.Error.{Error};
ghost use Rattle.ami_text.specs.Devices.{HasTaken};
ghost use Rattle.launcher.specs.Places.{AtEach};
ghost use Rattle.serving_clients.specs.declared.server_settings.TheConstants.{MOST_SERVED_SITES};
ghost use Rattle.site_links.specs.Linking.{AreLinksOf};
ghost use Rattle.site_links.specs.declared.linking.SiteLinks.{SiteLinks};
ghost use Rattle.server.specs.Listening.{listening_lines};
ghost use Rattle.server.specs.Tasks.{IsReady, tasks_for};

use crate::ServeSitesFault;
use crate::listening::{listen, write_listening};
use crate::ready_site::ReadySite;
use crate::sharing::{bells_of, shared_by};
use crate::working::tasks_of;
use ami_text::Sink;
use dots::{Memory, SiteId};
use event_log::EventLog;
use serving_clients::{ClientSettings, ServerSettings, answering_threads};
use site_desk::SiteBell;
use site_links::{LinkEnds, SiteLinks, link_all};
use std::alloc::Global;
use std::net::{Net, TcpListener, TcpStream};
use std::sync::Arc;

// Inserts an element at the front of a list that has room for it.
pub(crate) fn insert_first<T: Drop>(list: &mut Vec<T>, element: T)
    requires { vec_len list.old < vec_capacity list.old }
    ensures items { list.new.items ≡ insert list.old.items 0 element }
    ensures len { vec_len list.new ≡ vec_len list.old + 1 }
    ensures capacity { vec_capacity list.new ≡ vec_capacity list.old }
{
    if list.insert(0, element).is_err() {
        unreachable!();
    }
}

// What the site of this number has, whose threads have this listener and these ends of links, which come from at most 63 peers. `bells` are
// those of all sites, by their numbers. It fails only when out of memory, and drops all.
fn ready_site(
    alloc: Global,
    number: SiteId,
    clients: &ClientSettings<'_>,
    bells: &[Arc<SiteBell, Global>],
    listener: TcpListener,
    links: LinkEnds,
) -> Result<ReadySite, Memory>
    requires bells { number < length bells.now }
    requires links { vec_len links.from ≤ 63 }
    ensures number { IfOk result (λ site. site.shared.number ≡ number) }
    ensures tasks { IfOk result (λ site. site.tasks.items
        ≡ tasks_for number (clients.now.session.now.places + 1) links) }
{
    let answering = answering_threads(clients.session.places);
    let Ok(tasks) = tasks_of(alloc, number, answering, links) else {
        drop(listener);
        return Err(Memory);
    };
    match shared_by(alloc, number, clients, bells, listener) {
        Ok(shared) => Ok(ReadySite { shared, tasks }),
        Err(_) => {
            drop(tasks);
            Err(Memory)
        }
    }
}

// What each site has, with the listener and the ends of links of its number. There are as many bells and ends of links as listeners, at
// most 8. It fails only when out of memory, and drops all.
fn sites_with(
    alloc: Global,
    clients: &ClientSettings<'_>,
    bells: &[Arc<SiteBell, Global>],
    listeners: Vec<TcpListener>,
    links: SiteLinks,
) -> Result<Vec<ReadySite>, Memory>
    requires few { vec_len listeners ≤ MOST_SERVED_SITES }
    requires bells { length bells.now ≡ vec_len listeners }
    requires links { AreLinksOf (vec_len listeners) links }
    ensures number { IfOk result (λ sites. vec_len sites ≡ vec_len listeners) }
    ensures each { IfOk result (λ sites. AtEach (λ place site.
        IsReady (clients.now.session.now.places + 1) links place site) sites.items) }
{
    let mut listeners = listeners;
    let mut links = links;
    let mut sites = match Vec::with_capacity(alloc, listeners.len()) {
        Ok(sites) => sites,
        Err(_) => {
            drop(listeners);
            drop(links);
            return Err(Memory);
        }
    };
    while let Some(listener) = listeners.pop() {
        let Some(ends) = links.pop() else {
            unreachable!();
        };
        let Some(number) = SiteId::new(listeners.len() as u16) else {
            unreachable!();
        };
        match ready_site(alloc, number, clients, bells, listener, ends) {
            Ok(site) => insert_first(&mut sites, site),
            Err(_) => {
                drop(listeners);
                drop(links);
                drop(sites);
                return Err(Memory);
            }
        }
    }
    drop(listeners);
    drop(links);
    Ok(sites)
}

// What the sites at these listeners, at most 8, have: new bells, and a new link from each to each other. It fails only when out of memory,
// and drops all.
fn ready_sites(
    alloc: Global,
    clients: &ClientSettings<'_>,
    listeners: Vec<TcpListener>,
) -> Result<Vec<ReadySite>, Memory>
    requires few { vec_len listeners ≤ MOST_SERVED_SITES }
    ensures number { IfOk result (λ sites. vec_len sites ≡ vec_len listeners) }
    ensures each { IfOk result (λ sites. (links : SiteLinks) × AtEach (λ place site.
        IsReady (clients.now.session.now.places + 1) links place site) sites.items) }
{
    let bells = match bells_of(alloc, listeners.len()) {
        Ok(bells) => bells,
        Err(_) => {
            drop(listeners);
            return Err(Memory);
        }
    };
    let links = match link_all(alloc, listeners.len()) {
        Ok(links) => links,
        Err(_) => {
            drop(bells);
            drop(listeners);
            return Err(Memory);
        }
    };
    let sites = sites_with(alloc, clients, bells.as_slice(), listeners, links);
    drop(bells);
    sites
}

// Listens for all sites of a server, writes where, and gives each what it has before it is launched, in the order of their numbers. Errors,
// in order: `CannotListen`; `Write`; `Memory`, which may stand in place of each. After an error no site listens. `sessions` is how many
// connections each site takes; `None`: any number.
pub(crate) fn prepare_sites<R: Net<Listener = TcpListener, Stream = TcpStream>, W: Sink>(
    rt: &R,
    alloc: Global,
    settings: &ServerSettings,
    sessions: Option<u32>,
    log: &mut W,
    events: &Arc<EventLog, Global>,
) -> Result<Vec<ReadySite>, ServeSitesFault>
    requires log { W.failed log.old ≡ false }
    ensures number { IfOk result (λ sites. vec_len sites ≡ settings.now.sites) }
    ensures each { IfOk result (λ sites. (links : SiteLinks) × AtEach (λ place site.
        IsReady (settings.now.session.places + 1) links place site) sites.items) }
    ensures written { OnOk result (Appends (W.taken log.old) (W.taken log.new)
        (listening_lines settings.now.address settings.now.port settings.now.sites)) }
    ensures port { (port : ℕ) (reason : Error)
        → IsErrOf result (ServeSitesFault.CannotListen port reason)
        → (settings.now.port ≤ port) × (port < settings.now.port + settings.now.sites) }
    ensures unwritten { (port : ℕ) (reason : Error)
        → IsErrOf result (ServeSitesFault.CannotListen port reason) → log.new ≡ log.old }
    ensures begun { OnErr result (HasTaken (W.taken log.old) (W.taken log.new)
        (listening_lines settings.now.address settings.now.port settings.now.sites)) }
    ensures write { IsErrOf result ServeSitesFault.Write ↔ (W.failed log.new ≡ true) }
    ensures works { OnOk result (W.failed log.new ≡ false) }
    ensures fault { IfErr result (λ fault. fault ≢ ServeSitesFault.NoThread) }
{
    let clients = ClientSettings {
        session: &settings.session,
        connections: sessions,
        events,
    };
    let listeners = listen(rt, alloc, settings)?;
    if let Err(fault) = write_listening(alloc, log, settings) {
        drop(listeners);
        return Err(fault);
    }
    let sites = ready_sites(alloc, &clients, listeners)?;
    Ok(sites)
}
