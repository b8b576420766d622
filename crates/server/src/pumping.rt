//! The threads of a site that send its frames, and that take those of its peers. A fault ends a pump, which is then called again.
ghost use Rattle.std.specs.Prelude.{◌≡◌, ◌≤◌, IfErr, MatchOption, OnOk, true, vec_capacity, vec_len};
ghost use Rattle.site_pumps.specs.Calls.{HasCalled};
ghost use Rattle.server.specs.EndingFaults.{EndsSite};

use crate::hurrying_ear::HurryingEar;
use crate::peer_link::PeerLink;
use crate::peer_outlet::PeerOutlet;
use crate::site::Site;
use site_journal::{DeskFault, Port};
use site_links::LinkSender;
use site_pumps::{NoReceipts, PumpedIn, broadcast, broadcast_whole, pump_in};
use std::alloc::Global;
use std::sync::Wait;
use std::thread;
use std::time::{Clock, Duration};
use stored_pass_desk::{KeepingPort, Upkeep};

// How long the thread that sends waits after a fault, in milliseconds.
const PAUSE_MILLIS: u64 = 20;

// Prepares what a pump does next after a fault. `Exhausted` begins a round: nothing is tried before the next ring or the bell's end, or
// before a whole is due for a peer that is behind. After other faults the bell rings, so that what a refused cut had to send is cut again;
// a whole that was due stays so, and after `Memory` one is due: a frame may have been made that was not sent on every link.
fn note_fault<R: Wait + Clock>(rt: &R, site: &Site, ear: &mut HurryingEar<'_>, fault: DeskFault)
    ensures { ear.new.ear.closed ≡ ear.old.ear.closed }
{
    match fault {
        DeskFault::Exhausted => ear.begin_round(rt),
        DeskFault::Memory => {
            ear.end_round();
            site.bell.ring(rt);
        }
        _ => site.bell.ring(rt),
    }
}

// Notes that the last frame of all these outlets was a whole. If each link that is up has taken it, the site's bell notes that no peer
// lacks frames. Returns whether each has.
fn end_whole<R: Wait>(rt: &R, site: &Site, outlets: &mut [PeerOutlet<'_>]) -> bool {
    let mut have_all = true;
    for outlet in outlets {
        if !outlet.end_whole(rt) {
            have_all = false;
        }
    }
    if have_all {
        site.lack_no_frames(rt);
    }
    have_all
}

// Sends to these outlets by this port what the site does, until the site's bell has ended. When a whole is due, it sends one. Once the bell
// has ended it sends wholes until each link that is up has taken one.
//
// After a fault it waits for 20 ms and goes on: what it had to send when a cut was refused is sent with the next cut, and a whole that was
// not sent to every outlet is made again. If the bell has ended it returns after a fault, and sends no more. Error: `Unsaved`, if the
// site's store has failed.
fn send_to_the_end<R: Wait + Clock, P: Port<R>>(
    rt: &R,
    site: &Site,
    port: &mut P,
    outlets: &mut [PeerOutlet<'_>],
    ear: &mut HurryingEar<'_>,
) -> Result<(), DeskFault>
    ensures calls { HasCalled P.makes P.refuses port.old port.new }
    ensures ended { OnOk result (ear.new.ear.closed ≡ true) }
    ensures fault { IfErr result (λ fault. fault ≡ DeskFault.Unsaved) }
{
    let mut sink = NoReceipts;
    for _ in rt.forever() {
        match broadcast(rt, port, outlets, ear, &mut sink) {
            Ok(()) => {
                let have_all = end_whole(rt, site, outlets);
                if ear.has_bell_ended() {
                    if have_all {
                        return Ok(());
                    }
                    thread::sleep(rt, Duration::from_millis(PAUSE_MILLIS));
                }
                ear.begin_round(rt);
            }
            Err(DeskFault::Unsaved) => return Err(DeskFault::Unsaved),
            Err(fault) => {
                if ear.has_bell_ended() {
                    return Ok(());
                }
                thread::sleep(rt, Duration::from_millis(PAUSE_MILLIS));
                note_fault(rt, site, ear, fault);
            }
        }
    }
    unreachable!()
}

// Sends a whole to these outlets by this port, without a mark. Any error is ignored: then a whole is due.
fn send_first_whole<R: Wait + Clock, P: Port<R>>(
    rt: &R,
    port: &mut P,
    outlets: &mut [PeerOutlet<'_>],
    ear: &mut HurryingEar<'_>,
)
    ensures { HasCalled P.makes P.refuses port.old port.new }
{
    let mut sink = NoReceipts;
    match broadcast_whole(rt, port, outlets, &mut sink) {
        Ok(()) => ear.begin_round(rt),
        Err(_) => ear.end_round(),
    }
}

// Room for this number of outlets. Waits until there is memory for it.
fn room_for<'a, R: Wait + Clock>(rt: &R, alloc: Global, number: usize) -> Vec<PeerOutlet<'a>>
    ensures none { vec_len result ≡ 0 }
    ensures room { number ≤ vec_capacity result }
{
    for _ in rt.forever() {
        if let Ok(room) = Vec::with_capacity(alloc, number) {
            return room;
        }
        thread::sleep(rt, Duration::from_millis(PAUSE_MILLIS));
    }
    unreachable!()
}

// The outlets over a site's links. The links stand by the numbers of the peers, the outlets in the reverse order. Waits until there is
// memory for them.
fn outlets_of<'a, R: Wait + Clock>(
    rt: &R,
    alloc: Global,
    site: &'a Site,
    links: Vec<LinkSender>,
) -> Vec<PeerOutlet<'a>> {
    let own = usize::from(site.number.number());
    let mut links = links;
    let mut outlets = room_for(rt, alloc, links.len());
    while let Some(link) = links.pop() {
        let place = links.len();
        let peer = if place < own { place } else { place + 1 };
        outlets.push_reserved(PeerOutlet::new(alloc, site, peer, link));
    }
    drop(links);
    outlets
}

// Sends on these links by this port what the site does, and drops the links once the site's bell has ended, or the site's store has failed.
// The journal is kept within its limits meanwhile. If the site `is_restored`, it sends a whole first: frames of before may not have been
// sent. Gives the port back.
pub(crate) fn send_news<R: Wait + Clock, P: Port<R>, U: Upkeep<R>>(
    rt: &R,
    alloc: Global,
    site: &Site,
    upkeep: &U,
    port: P,
    links: Vec<LinkSender>,
    is_restored: bool,
) -> P
    ensures { HasCalled P.makes P.refuses port result }
{
    let mut outlets = outlets_of(rt, alloc, site, links);
    let mut ear = HurryingEar::new(site);
    let mut keeping = KeepingPort::new(port, upkeep);
    if is_restored {
        send_first_whole(rt, &mut keeping, outlets.as_mut_slice(), &mut ear);
    }
    let _ = send_to_the_end(rt, site, &mut keeping, outlets.as_mut_slice(), &mut ear);
    drop(ear);
    drop(outlets);
    keeping.into_inner()
}

// Takes by this port the frames of a peer, until the link has ended. After a fault that doesn't end the site, the site is behind the peer
// and goes on. Error: the first fault that ends the site.
fn take_to_the_end<R: Wait, P: Port<R>>(
    rt: &R,
    port: &mut P,
    link: &mut PeerLink<'_>,
) -> Result<(), DeskFault>
    ensures calls { HasCalled P.makes P.refuses port.old port.new }
    ensures ended { OnOk result (link.new.link.ended ≡ true) }
    ensures fault { IfErr result (λ fault. EndsSite fault) }
{
    let mut sink = NoReceipts;
    for _ in rt.forever() {
        let PumpedIn { fault, refused } = pump_in(rt, port, link, &mut sink);
        drop(refused);
        let Some(fault) = fault else {
            return Ok(());
        };
        if link.ends_site(fault) {
            return Err(fault);
        }
        link.refuse(rt, fault);
    }
    unreachable!()
}

// Takes by this port the frames of a peer, until the link has ended, or a fault ends the site, which the link notes. The journal is kept
// within its limits meanwhile. Gives the port back.
pub(crate) fn take_news<R: Wait, P: Port<R>, U: Upkeep<R>>(
    rt: &R,
    upkeep: &U,
    port: P,
    link: &mut PeerLink<'_>,
) -> P
    ensures calls { HasCalled P.makes P.refuses port result }
    ensures ended { MatchOption link.new.ending (link.new.link.ended ≡ true)
        (λ fault. EndsSite fault) }
{
    let mut keeping = KeepingPort::new(port, upkeep);
    let taken = take_to_the_end(rt, &mut keeping, link);
    link.ending = taken.err();
    keeping.into_inner()
}
