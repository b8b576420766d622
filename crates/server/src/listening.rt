//! The listeners of all sites, and the lines that say where they listen.
ghost use Rattle.std.specs.Prelude.{◌≡◌, ◌⊎◌, ◌↔◌, ◌+◌, ◌<◌, ◌≤◌, ℕ, IfErr, IfOk, IsErrOf, OnErr};
ghost use Rattle.std.specs.Prelude.{OnOk, false, string_bytes, true, vec_len};
ghost use Rattle.std.specs.Io.KnownBytes.{Appends};
ghost use Rattle.std.specs.declared.io.Error.{Error};
ghost use Rattle.ami_text.specs.Devices.{HasTaken};
ghost use Rattle.server.specs.Listening.{listening_line, listening_lines};

use crate::ServeSitesFault;
use ami_text::{Sink, write_all};
use dots::Memory;
use serving_clients::ServerSettings;
use std::alloc::Global;
use std::net::{IpAddr, Net, SocketAddr, TcpListener, TcpStream};

// Listens for each site of a server, at its port. Errors, in order: `Memory`; `CannotListen`, with the first port that can't be listened on
// and the system's reason.
pub(crate) fn listen<R: Net<Listener = TcpListener, Stream = TcpStream>>(
    rt: &R,
    alloc: Global,
    settings: &ServerSettings,
) -> Result<Vec<TcpListener>, ServeSitesFault>
    ensures number { IfOk result (λ listeners. vec_len listeners ≡ settings.now.sites) }
    ensures port { (own : ℕ) (reason : Error)
        → IsErrOf result (ServeSitesFault.CannotListen own reason)
        → (settings.now.port ≤ own) × (own < settings.now.port + settings.now.sites) }
    ensures fault { IfErr result (λ fault. (fault ≡ ServeSitesFault.Memory)
        ⊎ ((own : ℕ) × (reason : Error) × (fault ≡ ServeSitesFault.CannotListen own reason))) }
{
    let mut listeners = Vec::with_capacity(alloc, usize::from(settings.sites))?;
    for site in 0..settings.sites {
        let own = settings.port + site;
        match TcpListener::bind(rt, SocketAddr::from((settings.address, own))) {
            Ok(listener) => listeners.push_reserved(listener),
            Err(reason) => return Err(ServeSitesFault::CannotListen(own, reason)),
        }
    }
    Ok(listeners)
}

// The line of a site that listens. It fails only when out of memory.
fn line_of(alloc: Global, address: IpAddr, port: u16) -> Result<String, Memory>
    ensures { IfOk result (λ line. string_bytes line ≡ listening_line address port) }
{
    let line = match address {
        IpAddr::V4(own) => format!(in alloc; "listening {own}:{port}\n")?,
        IpAddr::V6(own) => format!(in alloc; "listening [{own}]:{port}\n")?,
    };
    Ok(line)
}

// Writes a line for each site of a server, which all listen. Errors: `Write`, `Memory`; a prefix of the lines was then written.
pub(crate) fn write_listening<W: Sink>(
    alloc: Global,
    log: &mut W,
    settings: &ServerSettings,
) -> Result<(), ServeSitesFault>
    requires log { W.failed log.old ≡ false }
    ensures written { OnOk result (Appends (W.taken log.old) (W.taken log.new)
        (listening_lines settings.now.address settings.now.port settings.now.sites)) }
    ensures begun { OnErr result (HasTaken (W.taken log.old) (W.taken log.new)
        (listening_lines settings.now.address settings.now.port settings.now.sites)) }
    ensures write { IsErrOf result ServeSitesFault.Write ↔ (W.failed log.new ≡ true) }
    ensures works { OnOk result (W.failed log.new ≡ false) }
    ensures fault { IfErr result (λ fault.
        (fault ≡ ServeSitesFault.Write) ⊎ (fault ≡ ServeSitesFault.Memory)) }
{
    for site in 0..settings.sites {
        let line = line_of(alloc, settings.address, settings.port + site)?;
        match write_all(log, line.as_bytes()) {
            Ok(()) => {}
            Err(_) => return Err(ServeSitesFault::Write),
        }
    }
    Ok(())
}
