//! A pump that sends each frame on every outlet, in order.
ghost use Rattle.std.specs.Prelude.{◌≡◌, ◌⊎◌, ◌+◌, [], ℕ, IfErr, IfOk, List, None, OnErr, OnOk};
ghost use Rattle.std.specs.Prelude.{Some, true};
ghost use Rattle.std.specs.Result.{result_err};
ghost use Rattle.site_journal.specs.Receipts.{IsOfWhole};
ghost use Rattle.site_pumps.specs.Broadcasts.{HasBroadcast, IsOfKind, frame_in};
ghost use Rattle.site_pumps.specs.Carried.{EachLink};
ghost use Rattle.site_pumps.specs.Deeds.{AreCutsAndWhole, AreCutsFor};
ghost use Rattle.site_pumps.specs.Outgoing.{AddsReceipt};
ghost use Rattle.site_pumps.specs.Outlets.{OutletBegins, OutletRun};

use crate::sending::send_item;
use crate::{Outlet, ReceiptSink};
use dots::Memory;
use site_journal::{Bell, DeskFault, Port, Receipt, StepDeed};
use std::sync::Wait;

// Sends the frame of a cut or a whole on each outlet, if it made one. Fails only when out of memory; then the first outlets may have been
// given it.
fn send_frame<R, O: Outlet<R>>(rt: &R, outlets: &mut [O], receipt: &Receipt) -> Result<(), Memory>
    ensures ok { OnOk result
        (EachLink (OutletRun O.given (frame_in receipt.now.deed)) outlets.old outlets.new) }
    ensures err { OnErr result
        (EachLink (OutletBegins O.given (frame_in receipt.now.deed)) outlets.old outlets.new) }
{
    match &receipt.deed {
        StepDeed::Cut(Some(frame)) => send_item(rt, outlets, frame),
        StepDeed::Whole(frame) => send_item(rt, outlets, frame),
        _ => Ok(()),
    }
}

// What a frame is of.
#[derive(Clone, Copy)]
enum FrameKind {
    // The changes since the last cut.
    Changes,
    // All that the site knows.
    Everything,
}

// Lets the port make a frame of this kind. The errors are the port's own.
fn make_frame<R, P: Port<R>>(rt: &R, port: &mut P, kind: FrameKind) -> Result<Receipt, DeskFault>
    ensures made { IfOk result (λ receipt. P.makes port.old receipt port.new) }
    ensures refused { IfErr result (λ cause. P.refuses port.old cause port.new) }
    ensures ordinal { P.ordinal port.new ≡ P.ordinal port.old }
    ensures deed { IfOk result (λ receipt. IsOfKind kind receipt) }
    ensures counted { IfOk result (λ receipt. P.share port.new ≡ P.share port.old + 1) }
    ensures well { IfOk result (λ receipt. P.fault port.new ≡ None) }
    ensures kept { IfErr result (λ cause. P.share port.new ≡ P.share port.old) }
    ensures recorded { IfErr result (λ cause. P.fault port.new ≡ Some cause) }
{
    match kind {
        FrameKind::Changes => port.cut(rt),
        FrameKind::Everything => port.whole(rt),
    }
}

// Lets the port make a frame of this kind, sends it on each outlet, and hands the receipt to the sink. Errors as of `broadcast_whole`;
// after the last the sink has the receipt.
fn make_and_send<R: Wait, P: Port<R>, O: Outlet<R>, K: ReceiptSink>(
    rt: &R,
    port: &mut P,
    outlets: &mut [O],
    sink: &mut K,
    kind: FrameKind,
) -> Result<(), DeskFault>
    ensures step { (receipts : List _)
        × AddsReceipt (IsOfKind kind) (P.fault port.new) [] receipts result
        × HasBroadcast P.makes P.refuses P.share O.given K.holds port.old port.new outlets.old
        outlets.new sink.old sink.new receipts (result_err result) }
    ensures fault { IfErr result (λ cause.
        (P.fault port.new ≡ Some cause) ⊎ (cause ≡ DeskFault.Memory)) }
    ensures ordinal { P.ordinal port.new ≡ P.ordinal port.old }
{
    if sink.prepare().is_err() {
        return Err(DeskFault::Memory);
    }
    let receipt = match make_frame(rt, port, kind) {
        Ok(receipt) => receipt,
        Err(fault) => return Err(fault),
    };
    let sent = send_frame(rt, outlets, &receipt);
    sink.put(receipt);
    match sent {
        Ok(()) => Ok(()),
        Err(_) => Err(DeskFault::Memory),
    }
}

/// Makes a whole, a frame of all that the site knows, sends it on every outlet, and hands the receipt to the sink. An outlet that is down
/// drops the frame. It waits where the port or an outlet does.
///
/// Errors, in order: 1 `Memory`, where the sink has no room for a receipt; 2 the port's own; 3 `Memory`, where the frame can't be sent on
/// every outlet: the first of them may have been given it, and the sink has the receipt (this project's own).
pub fn broadcast_whole<R: Wait, P: Port<R>, O: Outlet<R>, K: ReceiptSink>(
    rt: &R,
    port: &mut P,
    outlets: &mut [O],
    sink: &mut K,
) -> Result<(), DeskFault>
    ensures step { (receipts : List _)
        × AddsReceipt IsOfWhole (P.fault port.new) [] receipts result
        × HasBroadcast P.makes P.refuses P.share O.given K.holds port.old port.new outlets.old
        outlets.new sink.old sink.new receipts (result_err result) }
    ensures fault { IfErr result (λ cause.
        (P.fault port.new ≡ Some cause) ⊎ (cause ≡ DeskFault.Memory)) }
    ensures ordinal { P.ordinal port.new ≡ P.ordinal port.old }
{
    make_and_send(rt, port, outlets, sink, FrameKind::Everything)
}

/// Cuts at each ring of the bell, and sends the frame on every outlet, in order. Once the bell has ended it cuts once more, and then sends
/// a whole, a frame of all that the site knows. Each receipt is handed to the sink. An outlet that is down drops its frames, and the others
/// go on. It waits where the bell, the port or an outlet does.
///
/// A fault of a cut or of the whole stops it. Errors of each, in order: 1 `Memory`, where the sink has no room for a receipt; 2 the port's
/// own; 3 `Memory`, where the frame can't be sent on every outlet: the first of them may have been given it, the sink has the receipt, and
/// no later frame holds the changes of a cut but a whole (this project's own).
pub fn broadcast<R: Wait, P: Port<R>, O: Outlet<R>, B: Bell<R>, K: ReceiptSink>(
    rt: &R,
    port: &mut P,
    outlets: &mut [O],
    bell: &mut B,
    sink: &mut K,
) -> Result<(), DeskFault>
    ensures broadcast { (rung : ℕ) × (receipts : List _)
        × (B.rings bell.new ≡ B.rings bell.old + rung)
        × AreCutsFor rung receipts
        × OnOk result (AreCutsAndWhole (rung + 1) receipts)
        × HasBroadcast P.makes P.refuses P.share O.given K.holds port.old port.new outlets.old
        outlets.new sink.old sink.new receipts (result_err result) }
    ensures ended { OnOk result (B.ended bell.new ≡ true) }
    ensures fault { IfErr result (λ cause.
        (P.fault port.new ≡ Some cause) ⊎ (cause ≡ DeskFault.Memory)) }
    ensures ordinal { P.ordinal port.new ≡ P.ordinal port.old }
{
    for _ in rt.forever() {
        if !bell.wait(rt) {
            break;
        }
        if let Err(fault) = make_and_send(rt, port, outlets, sink, FrameKind::Changes) {
            return Err(fault);
        }
    }
    if let Err(fault) = make_and_send(rt, port, outlets, sink, FrameKind::Changes) {
        return Err(fault);
    }
    broadcast_whole(rt, port, outlets, sink)
}
