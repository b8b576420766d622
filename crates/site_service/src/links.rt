//! How a site is linked.
ghost use Rattle.std.specs.Prelude.{◌≡◌, ◌≤◌, IfOk, length, map, string_bytes, vec_len};
ghost use Rattle.dots.specs.declared.limits.TheConstants.{MOST_PEERS};

use dots::{MOST_PEERS, Memory, SiteId};
use link_keys::Key;
use linked_site::{LinkSettings, LinkedSiteFault};
use replica::QueueList;
use serving_clients::SessionSettings;
use std::alloc::Global;
use std::random::RandomSource;

/// A site that is linked to others, and how it is served (this project's own).
#[derive(Clone, Copy)]
pub struct LinkedRequest<'a> {
    /// The site's number.
    pub site: SiteId,
    /// Its queues.
    pub list: &'a QueueList,
    /// The settings of its sessions.
    pub session: &'a SessionSettings,
    /// The key of the secret that all sites share.
    pub key: &'a Key,
    /// The addresses of its peers, at most 64, each a host and a port. Its own may be among them.
    pub peers: &'a [String],
    pub ghost few_peers: { length peers.now ≤ MOST_PEERS },
}

// Copies of the addresses of peers, in their order. It fails only when out of memory.
fn peers_of(alloc: Global, addresses: &[String]) -> Result<Vec<String>, Memory>
    ensures number { IfOk result (λ peers. vec_len peers ≡ length addresses.now) }
    ensures texts { IfOk result (λ peers.
        map string_bytes peers.items ≡ map string_bytes addresses.now) }
{
    let mut peers = Vec::new(alloc);
    for address in addresses {
        peers.push(String::from_str(alloc, address.as_str())?)?;
    }
    Ok(peers)
}

// How a site is linked whose store has this name and was started `starts` times. It fails only when out of memory.
pub(crate) fn links_of(
    alloc: Global,
    request: &LinkedRequest<'_>,
    store: [u8; 16],
    starts: u64,
) -> Result<LinkSettings, Memory>
    ensures key { IfOk result (λ links. links.key ≡ request.now.key.now) }
    ensures store { IfOk result (λ links. links.store ≡ store) }
    ensures starts { IfOk result (λ links. links.starts ≡ starts) }
    ensures peers { IfOk result (λ links. vec_len links.peers ≡ length request.now.peers.now) }
    ensures texts { IfOk result (λ links.
        map string_bytes links.peers.items ≡ map string_bytes request.now.peers.now) }
{
    let peers = peers_of(alloc, request.peers)?;
    Ok(LinkSettings {
        key: Key::new(*request.key.as_bytes()),
        store,
        starts,
        peers,
    })
}

// How a site is linked that has no store. Errors, in order: `Memory`, `NoRandom`.
pub(crate) fn links_without_store<R: RandomSource>(
    rt: &R,
    alloc: Global,
    request: &LinkedRequest<'_>,
) -> Result<LinkSettings, LinkedSiteFault>
    ensures key { IfOk result (λ links. links.key ≡ request.now.key.now) }
    ensures starts { IfOk result (λ links. links.starts ≡ 1) }
    ensures peers { IfOk result (λ links. vec_len links.peers ≡ length request.now.peers.now) }
    ensures texts { IfOk result (λ links.
        map string_bytes links.peers.items ≡ map string_bytes request.now.peers.now) }
{
    match peers_of(alloc, request.peers) {
        Ok(peers) => { LinkSettings::without_store(rt, Key::new(*request.key.as_bytes()), peers) }
        Err(_) => Err(LinkedSiteFault::Memory),
    }
}
