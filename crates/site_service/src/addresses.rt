//! Where a linked site listens.
ghost use Rattle.std.specs.Prelude.{◌≡◌, ◌↔◌, IfErr, IfOk, IsErrOf, OnOk, false, string_bytes, true};
ghost use Rattle.std.specs.Io.KnownBytes.{Appends};
ghost use Rattle.std.specs.declared.io.Error.{Error};
ghost use Rattle.std.specs.declared.net.socket_addr.SocketAddr.{SocketAddr};
ghost use Rattle.site_service.specs.Addresses.{address_lines};
ghost use Rattle.site_service.specs.Refusals.{IsRefusal};

use crate::ServiceFault;
use ami_text::{Sink, write_all};
use dots::Memory;
use linked_site::LinkedSiteFault;
use std::alloc::Global;
use std::net::{SocketAddr, TcpListener};

/// Where a linked site listens (this project's own).
#[derive(Drop)]
pub struct Listeners {
    /// Here clients connect.
    pub clients: TcpListener,
    /// Here other sites connect.
    pub links: TcpListener,
}

// The lines that say where a site listens: for clients, then for links. It fails only when out of memory.
fn lines_of(alloc: Global, clients: SocketAddr, links: SocketAddr) -> Result<String, Memory>
    ensures { IfOk result (λ lines. string_bytes lines ≡ address_lines clients links) }
{
    let lines = format!(in alloc; "listening clients {clients}\nlistening links {links}\n")?;
    Ok(lines)
}

// The address of a listener. Error: `Linked` with `NoAddress` and the system's reason.
fn address_of(listener: &TcpListener) -> Result<SocketAddr, ServiceFault>
    ensures fault { IfErr result (λ fault. (reason : Error)
        × (fault ≡ ServiceFault.Linked (LinkedSiteFault.NoAddress reason))) }
{
    match listener.local_addr() {
        Ok(address) => Ok(address),
        Err(reason) => Err(ServiceFault::Linked(LinkedSiteFault::NoAddress(reason))),
    }
}

// Writes where a site listens. Errors, in order: `Linked` with `NoAddress`, and `Memory`, which write nothing; `Write`, after a prefix of
// the lines.
pub(crate) fn write_addresses<W: Sink>(
    alloc: Global,
    log: &mut W,
    listeners: &Listeners,
) -> Result<(), ServiceFault>
    requires log { W.failed log.old ≡ false }
    ensures written { OnOk result ((clients : SocketAddr) × (links : SocketAddr)
        × Appends (W.taken log.old) (W.taken log.new) (address_lines clients links)) }
    ensures refused { IfErr result (λ fault. IsRefusal fault → log.new ≡ log.old) }
    ensures write { IsErrOf result ServiceFault.Write ↔ (W.failed log.new ≡ true) }
    ensures works { OnOk result (W.failed log.new ≡ false) }
{
    let clients = address_of(&listeners.clients)?;
    let links = address_of(&listeners.links)?;
    let Ok(lines) = lines_of(alloc, clients, links) else {
        return Err(ServiceFault::Memory);
    };
    match write_all(log, lines.as_bytes()) {
        Ok(()) => Ok(()),
        Err(_) => Err(ServiceFault::Write),
    }
}
