//! What the threads of each site of a server share, and with other sites.
ghost use Rattle.std.specs.Prelude.{◌≡◌, ◌<◌, IfOk, length, vec_len};

use crate::site::Site;
use dots::{Memory, SiteId};
use serving_clients::{ClientSettings, Clients};
use site_desk::SiteBell;
use std::alloc::Global;
use std::net::TcpListener;
use std::sync::Arc;

// Copies of the handles of these bells, in their order. It fails when out of memory, or if a
// bell has too many handles.
fn copies_of(
    alloc: Global,
    bells: &[Arc<SiteBell, Global>],
) -> Result<Vec<Arc<SiteBell, Global>>, Memory> {
    let mut copies = Vec::with_capacity(alloc, bells.len())?;
    for bell in bells {
        copies.push(Arc::try_clone(bell)?)?;
    }
    Ok(copies)
}

// A new bell for each of `sites` sites. It fails only when out of memory.
pub(crate) fn bells_of(alloc: Global, sites: usize) -> Result<Vec<Arc<SiteBell, Global>>, Memory>
    ensures { IfOk result (λ bells. vec_len bells ≡ sites) }
{
    let mut bells = Vec::new(alloc);
    for _i in 0..sites {
        match Arc::new(alloc, SiteBell::new()) {
            Ok(bell) => bells.push(bell)?,
            Err(_) => return Err(Memory),
        }
    }
    Ok(bells)
}

// What the threads of the site of this number share. `bells` are those of all sites, by their
// numbers. `Memory`: out of memory, or a bell or the log has too many handles; the listener is
// dropped.
pub(crate) fn shared_by(
    alloc: Global,
    number: SiteId,
    settings: &ClientSettings<'_>,
    bells: &[Arc<SiteBell, Global>],
    listener: TcpListener,
) -> Result<Site, Memory>
    requires { number < length bells.now }
    ensures { IfOk result (λ shared. shared.number ≡ number) }
{
    let Ok(bell) = Arc::try_clone(&bells[usize::from(number.number())]) else {
        drop(listener);
        return Err(Memory);
    };
    let Ok(bells) = copies_of(alloc, bells) else {
        drop(bell);
        drop(listener);
        return Err(Memory);
    };
    match Clients::new(alloc, number, listener, settings) {
        Ok(clients) => Ok(Site {
            number,
            clients,
            bell,
            bells,
        }),
        Err(_) => {
            drop(bell);
            drop(bells);
            Err(Memory)
        }
    }
}
