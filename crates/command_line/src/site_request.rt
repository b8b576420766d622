ghost use Rattle.std.specs.Prelude.{◌≤◌, vec_len};
ghost use Rattle.dots.specs.declared.limits.TheConstants.{MOST_PEERS};

use crate::store_request::StoreRequest;
use dots::{MOST_PEERS, SiteId};
use link_keys::Key;
use replica::QueueList;
use serving_clients::SessionSettings;

/// Where a site is reached, and its peers. Each address is that of a host, by its name or number, and a port.
#[derive(Drop)]
pub struct SiteAddresses {
    /// Where clients connect.
    pub clients: String,
    /// Where other sites connect.
    pub links: String,
    /// The peers that it connects to, at most 64; its own address may be among them.
    pub peers: Vec<String>,
    pub ghost few_peers: { vec_len peers ≤ MOST_PEERS },
}

/// A site that is served in a process of its own, and linked to others.
#[derive(Drop)]
pub struct SiteRequest {
    /// The site's number.
    pub site: SiteId,
    /// Its queues.
    pub list: QueueList,
    /// The settings of its sessions.
    pub session: SessionSettings,
    /// The key of the secret that all sites share.
    pub key: Key,
    /// Its store. `None`: it stores nothing.
    pub store: Option<StoreRequest>,
    /// Where it is reached, and its peers.
    pub addresses: SiteAddresses,
}
