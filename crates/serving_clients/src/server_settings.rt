ghost use Rattle.std.specs.Prelude.{◌≡◌, ◌⊎◌, ◌↔◌, ◌<◌, ◌≤◌, IfOk, IsErrOf};
ghost use Rattle.serving_clients.specs.declared.server_settings.TheConstants.{LAST_PORT};
ghost use Rattle.serving_clients.specs.declared.server_settings.TheConstants.{MOST_SERVED_SITES};

use crate::SessionSettings;
use std::net::IpAddr;
use thiserror::Error;

/// How many sites may be served at once.
pub const MOST_SERVED_SITES: u16 = 8;

/// The last port that site 0 may have, so that there is one for each of eight sites.
pub const LAST_PORT: u16 = 65_528;

/// Why sites can't be served by some settings, in order (this project's own).
#[derive(Clone, Copy, Debug, PartialEq, Eq, Error)]
pub enum SettingsFault {
    /// The number of sites is not 1 to 8.
    #[error("bad number of sites")]
    Sites,
    /// The port of site 0 is not 1 to 65,528.
    #[error("bad port")]
    Port,
}

/// Which sites a server serves, and where (this project's own).
#[derive(Drop)]
pub struct ServerSettings {
    /// The number of sites, 1 to 8.
    pub sites: u16,
    /// The address at which all sites listen.
    pub address: IpAddr,
    /// The port of site 0, 1 to 65,528. Site 1 has the next port, and so on.
    pub port: u16,
    /// The settings of all sessions.
    pub session: SessionSettings,
    pub ghost some: { 1 ≤ sites },
    pub ghost most: { sites ≤ MOST_SERVED_SITES },
    pub ghost first: { 1 ≤ port },
    pub ghost last: { port ≤ LAST_PORT },
}

impl ServerSettings {
    /// These settings. Errors, in order: `Sites`, `Port`.
    pub fn new(
        sites: u16,
        address: IpAddr,
        port: u16,
        session: SessionSettings,
    ) -> Result<ServerSettings, SettingsFault>
        ensures sites { IfOk result (λ it. it.sites ≡ sites) }
        ensures address { IfOk result (λ it. it.address ≡ address) }
        ensures port { IfOk result (λ it. it.port ≡ port) }
        ensures session { IfOk result (λ it. it.session ≡ session) }
        ensures bad_sites { IsErrOf result SettingsFault.Sites
            ↔ ((sites < 1) ⊎ (MOST_SERVED_SITES < sites)) }
        ensures bad_port { IsErrOf result SettingsFault.Port
            ↔ ((1 ≤ sites) × (sites ≤ MOST_SERVED_SITES)
            × ((port < 1) ⊎ (LAST_PORT < port))) }
    {
        if sites < 1 || sites > MOST_SERVED_SITES {
            drop(session);
            return Err(SettingsFault::Sites);
        }
        if port < 1 || port > LAST_PORT {
            drop(session);
            return Err(SettingsFault::Port);
        }
        Ok(ServerSettings {
            sites,
            address,
            port,
            session,
        })
    }
}
