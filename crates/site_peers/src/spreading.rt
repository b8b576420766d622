//! The thread of a site that makes its frames and hands them to the outboxes of all peers.
ghost use Rattle.std.specs.Prelude.{◌≡◌, ◌⊎◌, ◌+◌, ◌∷◌, [], ℕ, IfErr, IfOk, List, OnErr, OnOk, Some, false, true};
ghost use Rattle.site_journal.specs.Receipts.{IsOfCut, IsOfWhole};
ghost use Rattle.std.specs.Result.{result_err};
ghost use Rattle.site_pumps.specs.Carried.{EachLink};
ghost use Rattle.site_peers.specs.Outboxes.{Handing, HasSpread, IsSettled, NoneWants, cut_count};

use crate::{MadeFrame, Outbox};
use site_journal::{Bell, DeskFault, Port, Receipt};
use std::sync::Wait;

// Hands a receipt to each outbox. Returns whether one of them then wants a whole.
fn hand_to_each<R, O: Outbox<R>>(rt: &R, outboxes: &mut [O], receipt: &Receipt) -> bool
    ensures handed { EachLink (λ old new. Handing O.handed old receipt.now new)
        outboxes.old outboxes.new }
    ensures none { result ≡ false → NoneWants O.handed receipt.now outboxes.old outboxes.new }
{
    let made = MadeFrame::of(receipt);
    let mut is_whole_wanted = false;
    for i in 0..outboxes.len() {
        if outboxes[i].hand(rt, &made) {
            is_whole_wanted = true;
        }
    }
    is_whole_wanted
}

// Cuts, and hands the receipt to each outbox. Returns whether one of them then wants a whole. Errors are the port's: then no outbox is
// handed anything.
fn cut_to_each<R, P: Port<R>, O: Outbox<R>>(
    rt: &R,
    port: &mut P,
    outboxes: &mut [O],
) -> Result<bool, DeskFault>
    ensures spread { (receipts : List Receipt)
        × HasSpread P.makes P.refuses O.handed port.old port.new outboxes.old outboxes.new
        receipts (result_err result)
        × IfOk result (λ wanted. (receipt : Receipt) × IsOfCut receipt
        × (receipts ≡ receipt ∷ [])
        × (wanted ≡ false → NoneWants O.handed receipt outboxes.old outboxes.new))
        × OnErr result (receipts ≡ []) }
    ensures fault { IfErr result (λ cause. P.fault port.new ≡ Some cause) }
    ensures ordinal { P.ordinal port.new ≡ P.ordinal port.old }
{
    let receipt = match port.cut(rt) {
        Ok(receipt) => receipt,
        Err(fault) => return Err(fault),
    };
    let is_whole_wanted = hand_to_each(rt, outboxes, &receipt);
    drop(receipt);
    Ok(is_whole_wanted)
}

// Makes a whole, and hands the receipt to each outbox. Errors are the port's: then no outbox is handed anything.
fn whole_to_each<R, P: Port<R>, O: Outbox<R>>(
    rt: &R,
    port: &mut P,
    outboxes: &mut [O],
) -> Result<(), DeskFault>
    ensures spread { (receipts : List Receipt)
        × HasSpread P.makes P.refuses O.handed port.old port.new outboxes.old outboxes.new
        receipts (result_err result)
        × OnOk result ((receipt : Receipt) × IsOfWhole receipt × (receipts ≡ receipt ∷ []))
        × OnErr result (receipts ≡ []) }
    ensures fault { IfErr result (λ cause. P.fault port.new ≡ Some cause) }
    ensures ordinal { P.ordinal port.new ≡ P.ordinal port.old }
{
    let receipt = match port.whole(rt) {
        Ok(receipt) => receipt,
        Err(fault) => return Err(fault),
    };
    hand_to_each(rt, outboxes, &receipt);
    drop(receipt);
    Ok(())
}

/// Cuts, and hands the receipt to each outbox. If an outbox says that it wants a whole, makes one, and hands its receipt to each outbox.
/// What an outbox asks for after it was handed the cut waits for the next call. Errors are the port's: of a call that failed no outbox is
/// handed anything.
pub fn spread_once<R, P: Port<R>, O: Outbox<R>>(
    rt: &R,
    port: &mut P,
    outboxes: &mut [O],
) -> Result<(), DeskFault>
    ensures spread { (receipts : List Receipt)
        × HasSpread P.makes P.refuses O.handed port.old port.new outboxes.old outboxes.new
        receipts (result_err result)
        × OnOk result ((cut_count receipts ≡ 1)
        × IsSettled O.handed receipts outboxes.old outboxes.new)
        × OnErr result ((cut_count receipts ≡ 0) ⊎ (cut_count receipts ≡ 1)) }
    ensures fault { IfErr result (λ cause. P.fault port.new ≡ Some cause) }
    ensures ordinal { P.ordinal port.new ≡ P.ordinal port.old }
{
    match cut_to_each(rt, port, outboxes) {
        Ok(true) => whole_to_each(rt, port, outboxes),
        Ok(false) => Ok(()),
        Err(fault) => Err(fault),
    }
}

/// Calls `spread_once` at each ring of the bell, until the bell has ended or a call of the port fails. It waits where the bell or the port
/// does. Errors are the port's.
pub fn spread<R: Wait, P: Port<R>, O: Outbox<R>, B: Bell<R>>(
    rt: &R,
    port: &mut P,
    outboxes: &mut [O],
    bell: &mut B,
) -> Result<(), DeskFault>
    ensures spread { (rung : ℕ) × (receipts : List Receipt)
        × (B.rings bell.new ≡ B.rings bell.old + rung)
        × HasSpread P.makes P.refuses O.handed port.old port.new outboxes.old outboxes.new
        receipts (result_err result)
        × OnOk result (cut_count receipts ≡ rung)
        × OnErr result ((cut_count receipts ≡ rung) ⊎ (cut_count receipts + 1 ≡ rung)) }
    ensures ended { OnOk result (B.ended bell.new ≡ true) }
    ensures fault { IfErr result (λ cause. P.fault port.new ≡ Some cause) }
    ensures ordinal { P.ordinal port.new ≡ P.ordinal port.old }
{
    for _ in rt.forever() {
        if !bell.wait(rt) {
            break;
        }
        if let Err(fault) = spread_once(rt, port, outboxes) {
            return Err(fault);
        }
    }
    Ok(())
}
