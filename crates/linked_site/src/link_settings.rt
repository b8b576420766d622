ghost use Rattle.std.specs.Prelude.{◌≡◌, ◌≤◌, IfOk, vec_len};
ghost use Rattle.dots.specs.declared.limits.TheConstants.{MOST_PEERS};

use crate::LinkedSiteFault;
use dots::MOST_PEERS;
use link_keys::Key;
use std::random::RandomSource;

/// How a site is linked: which store it is of, the secret that all sites share, and where its peers are (this project's own).
#[derive(Drop)]
pub struct LinkSettings {
    /// The key of the secret that all sites share.
    pub key: Key,
    /// The 16 bytes that name the site's store.
    pub store: [u8; 16],
    /// How often that store was started, this start included.
    pub starts: u64,
    /// The addresses of its peers, at most 64, each a host and a port, as `10.0.0.7:7038`. The site's own may be among them.
    pub peers: Vec<String>,
    pub ghost few_peers: { vec_len peers ≤ MOST_PEERS },
}

// 16 random bytes, as a name. Error: `NoRandom`.
pub(crate) fn random_name<R: RandomSource>(rt: &R) -> Result<[u8; 16], LinkedSiteFault> {
    let mut name = [0u8; 16];
    match rt.fill_bytes(&mut name) {
        Ok(()) => Ok(name),
        Err(_) => Err(LinkedSiteFault::NoRandom),
    }
}

impl LinkSettings {
    /// The settings of a site without a store: 16 random bytes are its name, and it was started once. Error: `NoRandom`.
    pub fn without_store<R: RandomSource>(
        rt: &R,
        key: Key,
        peers: Vec<String>,
    ) -> Result<LinkSettings, LinkedSiteFault>
        requires { vec_len peers ≤ MOST_PEERS }
        ensures key { IfOk result (λ links. links.key ≡ key) }
        ensures starts { IfOk result (λ links. links.starts ≡ 1) }
        ensures peers { IfOk result (λ links. links.peers ≡ peers) }
    {
        match random_name(rt) {
            Ok(store) => Ok(LinkSettings {
                key,
                store,
                starts: 1,
                peers,
            }),
            Err(fault) => {
                drop(key);
                drop(peers);
                Err(fault)
            }
        }
    }
}
