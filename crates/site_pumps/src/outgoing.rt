//! The state of a pump that sends.
ghost use Rattle.std.specs.Prelude.{◌≡◌, ◌+◌, ◌∷◌, ◌++◌, [], ◌≤◌, vec_len, List, IfErr, IfOk};
ghost use Rattle.std.specs.Prelude.{OnErr, OnOk, MatchOption, None, Some};
ghost use Rattle.site_journal.specs.Receipts.{IsOfCut, IsOfWhole};
ghost use Rattle.site_pumps.specs.Carried.{EachLink};
ghost use Rattle.site_pumps.specs.Deeds.{cut_frame, cut_frames, whole_frame, whole_frames};
ghost use Rattle.site_pumps.specs.Outgoing.{AddsReceipt, IsFrontOf, IsUnderWay, WorksAt};
ghost use Rattle.site_pumps.specs.Outlets.{OutletBegins, OutletRun};
ghost use Rattle.site_pumps.specs.Plans.{deed_at, held_after, planned, sent_for};

use crate::sending::{send_each, send_item};
use crate::{Deed, Outlet, PumpedOut};
use dots::{Memory, SharedBytes};
use site_journal::{DeskFault, Port, Receipt, StepDeed};
use std::alloc::Global;
use std::sync::Wait;

// The deed for the frame of this number, from 0: the plan's deeds in turn, or `Deliver` where it has none.
fn deed_of(plan: &[Deed], number: usize) -> Deed
    ensures { result ≡ deed_at plan.now number }
{
    if plan.is_empty() {
        return Deed::Deliver;
    }
    plan[number % plan.len()]
}

// The frames that are sent for a frame by this deed. For `Hold` there are none, and it is held behind the others. Else
// they are this frame, as often as the deed says, and then those that were held, which are held no more. Fails only
// when out of memory; then no contract says which are held.
fn frames_to_send(
    alloc: Global,
    deed: Deed,
    frame: &SharedBytes,
    held: &mut Vec<SharedBytes>,
) -> Result<Vec<SharedBytes>, Memory>
    ensures sent { IfOk result (λ items.
        items.items ≡ sent_for deed held.old.items frame.now) }
    ensures held { OnOk result (held.new.items ≡ held_after deed held.old.items frame.now) }
{
    let mut items = Vec::new(alloc);
    match deed {
        Deed::Deliver => items.push(frame.copy()?)?,
        Deed::Lose => (),
        Deed::Twice => {
            items.push(frame.copy()?)?;
            items.push(frame.copy()?)?;
        }
        Deed::Hold => {
            held.push(frame.copy()?)?;
            return Ok(items);
        }
    }
    items.append(held)?;
    Ok(items)
}

// The frame of a cut. `None` if there was nothing to cut.
fn frame_of(receipt: &Receipt) -> Option<&SharedBytes>
    requires { IsOfCut receipt.now }
    ensures { MatchOption result (cut_frame receipt.now.deed ≡ [])
        (λ frame. cut_frame receipt.now.deed ≡ frame.now ∷ []) }
{
    match &receipt.deed {
        StepDeed::Cut(Some(frame)) => Some(frame),
        _ => None,
    }
}

// Sends the frame of a whole on all outlets. Fails only when out of memory; then the first outlets may have been given
// it.
fn send_whole<R, O: Outlet<R>>(rt: &R, outlets: &mut [O], receipt: &Receipt) -> Result<(), Memory>
    requires { IsOfWhole receipt.now }
    ensures ok { OnOk result
        (EachLink (OutletRun O.given (whole_frame receipt.now.deed)) outlets.old outlets.new) }
    ensures err { OnErr result
        (EachLink (OutletBegins O.given (whole_frame receipt.now.deed)) outlets.old
        outlets.new) }
{
    match &receipt.deed {
        StepDeed::Whole(frame) => send_item(rt, outlets, frame),
        _ => Ok(()),
    }
}

// The state of a pump that sends: its receipts, the frames that it holds, and how many of the plan's deeds it has used.
#[derive(Drop)]
pub(crate) struct Outgoing {
    pub receipts: Vec<Receipt>,
    pub held: Vec<SharedBytes>,
    pub used: usize,
}

impl Outgoing {
    // The state of a pump that has done nothing.
    pub fn new(alloc: Global) -> Outgoing
        ensures { (result.receipts.items ≡ []) × (result.held.items ≡ []) × (result.used ≡ 0)
            × (vec_len result.receipts ≡ 0) }
    {
        Outgoing {
            receipts: Vec::new(alloc),
            held: Vec::new(alloc),
            used: 0,
        }
    }

    // Sends what the plan makes of a cut, and uses one deed: nothing and none for one without a frame. At most one deed
    // was used for each receipt, so their number has no overflow. The fault is `Memory`; then each outlet was given a
    // prefix of it.
    fn send_cut<R: Wait, O: Outlet<R>>(
        &mut self,
        rt: &R,
        alloc: Global,
        outlets: &mut [O],
        plan: &[Deed],
        receipt: &Receipt,
    ) -> Result<(), DeskFault>
        requires cut { IsOfCut receipt.now }
        requires few { self.old.used ≤ vec_len self.old.receipts }
        ensures ok { OnOk result ((start : List _)
            → IsUnderWay O.given plan.now self.old.receipts.items self.old.used self.old.held.items
            start outlets.old
            → IsUnderWay O.given plan.now (self.old.receipts.items ++ receipt.now ∷ [])
            self.new.used self.new.held.items start outlets.new) }
        ensures err { OnErr result ((start : List _)
            → IsUnderWay O.given plan.now self.old.receipts.items self.old.used self.old.held.items
            start outlets.old
            → IsFrontOf O.given plan.now (self.old.receipts.items ++ receipt.now ∷ []) start
            outlets.new) }
        ensures memory { IfErr result (λ fault. fault ≡ DeskFault.Memory) }
        ensures receipts { self.new.receipts ≡ self.old.receipts }
        ensures few { self.new.used ≤ self.old.used + 1 }
    {
        let Some(frame) = frame_of(receipt) else {
            return Ok(());
        };
        let deed = deed_of(plan, self.used);
        let Ok(items) = frames_to_send(alloc, deed, frame, &mut self.held) else {
            return Err(DeskFault::Memory);
        };
        self.used += 1;
        match send_each(rt, outlets, items.as_slice()) {
            Ok(()) => Ok(()),
            Err(_) => Err(DeskFault::Memory),
        }
    }

    // Cuts once more, sends the frame as the plan says, and keeps the receipt. At most one deed was used for each
    // receipt. Errors, in order: 1 `Memory`, where the receipt has no room; 2 the port's own; 3 `Memory`, as of
    // `send_cut`, with the receipt kept.
    pub fn cut<R: Wait, P: Port<R>, O: Outlet<R>>(
        &mut self,
        rt: &R,
        alloc: Global,
        port: &mut P,
        outlets: &mut [O],
        plan: &[Deed],
    ) -> Result<(), DeskFault>
        requires few { self.old.used ≤ vec_len self.old.receipts }
        ensures ok { OnOk result ((start : List _)
            → IsUnderWay O.given plan.now self.old.receipts.items self.old.used self.old.held.items
            start outlets.old
            → IsUnderWay O.given plan.now self.new.receipts.items self.new.used self.new.held.items
            start outlets.new) }
        ensures err { OnErr result ((start : List _)
            → IsUnderWay O.given plan.now self.old.receipts.items self.old.used self.old.held.items
            start outlets.old
            → IsFrontOf O.given plan.now self.new.receipts.items start outlets.new) }
        ensures stopped { IfErr result (λ cause. P.fault port.new ≡ Some cause
            → (start : List _)
            → IsUnderWay O.given plan.now self.old.receipts.items self.old.used self.old.held.items
            start outlets.old
            → IsUnderWay O.given plan.now self.new.receipts.items self.new.used self.new.held.items
            start outlets.new) }
        ensures receipts { AddsReceipt IsOfCut (P.fault port.new) self.old.receipts.items
            self.new.receipts.items result }
        ensures well { OnOk result (P.fault port.new ≡ None) }
        ensures few { self.new.used ≤ vec_len self.new.receipts }
        ensures port { WorksAt P.makes P.refuses P.fault P.ordinal P.share port.old port.new
            self.old self.new result }
    {
        if self.receipts.reserve(1).is_err() {
            return Err(DeskFault::Memory);
        }
        let receipt = port.cut(rt)?;
        let sent = self.send_cut(rt, alloc, outlets, plan, &receipt);
        self.receipts.push_reserved(receipt);
        sent
    }

    // Sends the held frames, and then a frame of all that the site knows, and keeps its receipt. It is the last call,
    // and the port's last one had no fault: a fault that the port has afterwards is that of the whole. Errors, in
    // order: 1 `Memory`, where the receipt has no room, or a held frame can't be sent; 2 the port's own; 3 `Memory`,
    // where the whole can't be sent, with the receipt kept.
    pub fn finish<R: Wait, P: Port<R>, O: Outlet<R>>(
        &mut self,
        rt: &R,
        port: &mut P,
        outlets: &mut [O],
    ) -> Result<(), DeskFault>
        requires well { P.fault port.old ≡ None }
        ensures ok { OnOk result ((start : List _) (plan : List _)
            → IsUnderWay O.given plan self.old.receipts.items self.old.used self.old.held.items
            start outlets.old
            → EachLink (OutletRun O.given (planned plan (cut_frames self.new.receipts.items)
            (whole_frames self.new.receipts.items))) start outlets.new) }
        ensures err { OnErr result ((start : List _) (plan : List _)
            → IsUnderWay O.given plan self.old.receipts.items self.old.used self.old.held.items
            start outlets.old
            → IsFrontOf O.given plan self.new.receipts.items start outlets.new) }
        ensures stopped { IfErr result (λ cause. P.fault port.new ≡ Some cause
            → (start : List _) (plan : List _)
            → IsUnderWay O.given plan self.old.receipts.items self.old.used self.old.held.items
            start outlets.old
            → EachLink (OutletRun O.given (planned plan (cut_frames self.new.receipts.items) [])) start
            outlets.new) }
        ensures receipts { AddsReceipt IsOfWhole (P.fault port.new) self.old.receipts.items
            self.new.receipts.items result }
        ensures port { WorksAt P.makes P.refuses P.fault P.ordinal P.share port.old port.new
            self.old self.new result }
    {
        if self.receipts.reserve(1).is_err() {
            return Err(DeskFault::Memory);
        }
        send_each(rt, outlets, self.held.as_slice())?;
        let receipt = port.whole(rt)?;
        let sent = send_whole(rt, outlets, &receipt);
        self.receipts.push_reserved(receipt);
        match sent {
            Ok(()) => Ok(()),
            Err(_) => Err(DeskFault::Memory),
        }
    }

    // The result of a pump that has sent everything.
    pub fn done(self) -> PumpedOut
        ensures { (result.receipts ≡ self.receipts) × (result.fault ≡ None) }
    {
        let Outgoing { receipts, .. } = self;
        PumpedOut {
            receipts,
            fault: None,
        }
    }

    // The result of a pump that a fault has stopped.
    pub fn stopped(self, fault: DeskFault) -> PumpedOut
        ensures { (result.receipts ≡ self.receipts) × (result.fault ≡ Some fault) }
    {
        let Outgoing { receipts, .. } = self;
        PumpedOut {
            receipts,
            fault: Some(fault),
        }
    }
}
