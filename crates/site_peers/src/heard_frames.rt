//! The frames of one link, which the site takes.
ghost use Rattle.std.specs.Prelude.{◌≡◌, List, Option};
ghost use Rattle.site_peers.specs.Turns.{WorksInTurn};

use crate::acknowledging::StreamAcknowledger;
use crate::clock::millis;
use crate::heard_links::HeardPeer;
use crate::stream_ends::SILENT_MILLIS;
use crate::{Acknowledge, HearFault, InletFault, LinkInlet, LinkLog, PeerLinks, take_frames};
use ami_text::{Source, StdSource};
use dots::{Memory, SiteId};
use link_hello::LinkKeys;
use link_stream::ReceiveFault;
use site_journal::{DeskFault, Port, Receipt, TakeFault};
use site_pumps::{PumpedIn, ReceiptSink};
use std::alloc::Global;
use std::net::TcpStream;
use std::sync::Wait;
use std::sync::atomic::Ordering;
use std::time::{Clock, Duration};

// A sink that drops the receipts of a link's frames, and counts them.
struct TakenCount<'a, R, G: Drop> {
    rt: &'a R,
    links: &'a PeerLinks<G>,
    site: SiteId,
    // Whether there was one.
    is_noted: bool,
}

impl<'a, R, G: Drop> Drop for TakenCount<'a, R, G> {
    fn drop(self) {
        let TakenCount {
            rt: _,
            links: _,
            site: _,
            is_noted: _,
        } = self;
    }
}

impl<'a, R: Wait, G: Drop> ReceiptSink for TakenCount<'a, R, G> {
    ghost use Rattle.std.specs.Prelude.{⊤};

    ghost holds = { λ sink receipts. ⊤ };

    ghost has_room = { λ sink. ⊤ };

    // There is always room: receipts are dropped.
    fn prepare(&mut self) -> Result<(), Memory> {
        Ok(())
    }

    // Counts a frame that was taken; the first one of the link is noted as one of its site.
    fn put(&mut self, receipt: Receipt) {
        drop(receipt);
        self.links.taken.fetch_add(1, Ordering::SeqCst);
        if !self.is_noted {
            self.links.heard.note_taken(self.rt, self.site);
            self.is_noted = true;
        }
    }
}

// This fault, if the site lacks room or memory for a frame, and may take a whole later. `None`: another fault, or none.
fn lack_of(fault: Option<DeskFault>) -> Option<DeskFault> {
    match fault {
        Some(
            DeskFault::Memory
            | DeskFault::Take(TakeFault::CellsFull | TakeFault::RunsFull | TakeFault::Memory),
        ) => fault,
        _ => None,
    }
}

// Lets the site take the frames of a link, until the link ends or a take is refused. Returns the fault of the refusal; `None`: the link
// has ended. But a frame for which the site lacks room or memory is dropped; the site is then behind, and goes on.
fn take_each<R: Wait, P: Port<R>, S: Source + Drop, A: Acknowledge<R> + Drop, K: ReceiptSink>(
    rt: &R,
    port: &mut P,
    inlet: &mut LinkInlet<S, A>,
    sink: &mut K,
) -> Option<DeskFault>
    ensures works { (works : List (List Receipt × Option DeskFault))
        × WorksInTurn P.makes P.refuses port.old works port.new }
    ensures ordinal { P.ordinal port.new ≡ P.ordinal port.old }
{
    for _ in rt.forever() {
        let PumpedIn { fault, refused } = take_frames(rt, port, inlet, sink);
        drop(refused);
        let Some(lack) = lack_of(fault) else {
            return fault;
        };
        inlet.acknowledger.fall_behind(rt, lack);
    }
    unreachable!()
}

// Lets the site take the frames of a link, as `take_each` does, until it ends or a take is refused, which the peer is sent unless the
// site's store has failed. A link ends over which nothing comes for 4 seconds. Returns why it ended. `NotPrepared`: nothing was read, since
// the clock or the stream's time limit failed.
pub(crate) fn hear_frames<R: Wait + Clock, G: Drop, P: Port<R>>(
    rt: &R,
    alloc: Global,
    links: &PeerLinks<G>,
    log: LinkLog<'_>,
    stream: &TcpStream,
    peer: &HeardPeer,
    keys: LinkKeys,
    port: &mut P,
) -> HearFault
    ensures works { (works : List (List Receipt × Option DeskFault))
        × WorksInTurn P.makes P.refuses port.old works port.new }
    ensures ordinal { P.ordinal port.new ≡ P.ordinal port.old }
{
    let LinkKeys {
        items,
        acknowledgements,
    } = keys;
    let wait = Duration::from_millis(SILENT_MILLIS);
    let (Some(now), Ok(())) = (millis(rt), stream.set_read_timeout(Some(wait))) else {
        drop(items);
        drop(acknowledgements);
        return HearFault::NotPrepared;
    };
    let acknowledger = StreamAcknowledger::new(
        rt,
        stream,
        &links.ending,
        &links.heard,
        log,
        peer,
        acknowledgements,
        now,
    );
    let source = StdSource::new(stream);
    let mut inlet = LinkInlet::new(alloc, items, source, acknowledger);
    let mut count = TakenCount {
        rt,
        links,
        site: peer.site,
        is_noted: false,
    };
    let fault = take_each(rt, port, &mut inlet, &mut count);
    drop(count);
    end_of(inlet, fault)
}

// Why a link has ended whose pump has ended by this fault of the port: `StoreFailed` if a step wasn't saved, which says nothing of the
// frame; else `Refused`, which the peer is sent too. Without a fault: `Inlet`, with the inlet's own.
fn end_of(
    inlet: LinkInlet<StdSource<&TcpStream>, StreamAcknowledger<'_>>,
    fault: Option<DeskFault>,
) -> HearFault {
    match fault {
        Some(DeskFault::Unsaved) => {
            drop(inlet);
            HearFault::StoreFailed
        }
        Some(fault) => {
            let mut acknowledger = inlet.into_acknowledger();
            acknowledger.refuse();
            drop(acknowledger);
            HearFault::Refused(fault)
        }
        None => {
            let fault = inlet.fault();
            drop(inlet);
            HearFault::Inlet(fault.unwrap_or(InletFault::Receive(ReceiveFault::Ended)))
        }
    }
}
