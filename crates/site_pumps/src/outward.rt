ghost use Rattle.std.specs.Prelude.{◌≡◌, ◌⊎◌, ◌+◌, ⊤, [], ℕ, None, Some, true, MatchOption, IfErr, OnErr};
ghost use Rattle.std.specs.Prelude.{OnOk, vec_len};
ghost use Rattle.site_journal.specs.Ports.{PortRun, PortWork};
ghost use Rattle.site_pumps.specs.Carried.{EachLink};
ghost use Rattle.site_pumps.specs.Deeds.{AreCutsAndWhole, AreCutsFor, cut_frames, whole_frames};
ghost use Rattle.site_pumps.specs.Outgoing.{IsFrontOf, IsStopped};
ghost use Rattle.site_pumps.specs.Outlets.{OutletRun};
ghost use Rattle.site_pumps.specs.Plans.{planned};

use crate::outgoing::Outgoing;
use crate::{Deed, LinkPlan, Outlet};
use site_journal::{Bell, DeskFault, Port, Receipt};
use std::alloc::Global;
use std::sync::Wait;

/// The result of a pump that sends.
#[derive(Drop)]
pub struct PumpedOut {
    /// The receipts of its cuts, and after them that of the whole, if it made one.
    pub receipts: Vec<Receipt>,
    /// The fault that stopped it, if one did.
    pub fault: Option<DeskFault>,
}

// Cuts at each ring and once more, and sends the held frames, and then a frame of all that the site knows. The first error of `Outgoing::cut`
// or `Outgoing::finish` ends it. `outgoing` has done nothing before.
fn pump_until_end<R: Wait, P: Port<R>, O: Outlet<R>, B: Bell<R>>(
    rt: &R,
    alloc: Global,
    outgoing: &mut Outgoing,
    port: &mut P,
    outlets: &mut [O],
    bell: &mut B,
    plan: &[Deed],
) -> Result<(), DeskFault>
    requires new { (outgoing.old.receipts.items ≡ []) × (outgoing.old.held.items ≡ [])
        × (outgoing.old.used ≡ 0) × (vec_len outgoing.old.receipts ≡ 0) }
    ensures sent { OnOk result (EachLink (OutletRun O.given (planned plan.now
        (cut_frames outgoing.new.receipts.items) (whole_frames outgoing.new.receipts.items)))
        outlets.old outlets.new) }
    ensures front { OnErr result
        (IsFrontOf O.given plan.now outgoing.new.receipts.items outlets.old outlets.new) }
    ensures stopped { IfErr result (λ cause. P.fault port.new ≡ Some cause
        → (rung : ℕ) × (B.rings bell.new ≡ B.rings bell.old + rung)
        × IsStopped O.given plan.now rung outgoing.new.receipts.items (B.ended bell.new)
        outlets.old outlets.new) }
    ensures receipts { OnOk result ((rung : ℕ) × (B.rings bell.new ≡ B.rings bell.old + rung)
        × AreCutsAndWhole (rung + 1) outgoing.new.receipts.items) }
    ensures cuts { (rung : ℕ) × (B.rings bell.new ≡ B.rings bell.old + rung)
        × AreCutsFor rung outgoing.new.receipts.items }
    ensures ended { OnOk result (B.ended bell.new ≡ true) }
    ensures run { OnOk result
        (PortRun P.makes port.old outgoing.new.receipts.items port.new) }
    ensures work { IfErr result (λ cause. PortWork P.makes P.refuses port.old
        outgoing.new.receipts.items (Some cause) port.new) }
    ensures fault { IfErr result (λ e. (P.fault port.new ≡ Some e) ⊎ (e ≡ DeskFault.Memory)) }
    ensures ordinal { P.ordinal port.new ≡ P.ordinal port.old }
    ensures share { P.share port.new ≡ P.share port.old + vec_len outgoing.new.receipts }
{
    for _ in rt.forever() {
        if !bell.wait(rt) {
            break;
        }
        outgoing.cut(rt, alloc, port, outlets, plan)?;
    }
    outgoing.cut(rt, alloc, port, outlets, plan)?;
    outgoing.finish(rt, port, outlets)
}

/// Cuts at each ring of the bell, and sends each frame on all outlets alike, as the plan says. It uses the plan's deeds in turn, and after the
/// last the first again; without deeds it sends each frame once. A cut without a frame uses no deed. Once the bell has ended it cuts once
/// more, sends the frames that it holds, and then, whatever the plan, a frame of all that the site knows. An outlet that is down drops its
/// frames, and the others go on. It waits where the bell, the port or an outlet does.
///
/// A fault stops it, and the frames that it holds are dropped: the port's own, or `Memory` where a receipt or a frame has no room (this
/// project's own).
pub fn pump_out<R: Wait, P: Port<R>, O: Outlet<R>, B: Bell<R>>(
    rt: &R,
    alloc: Global,
    port: &mut P,
    outlets: &mut [O],
    bell: &mut B,
    plan: &LinkPlan,
) -> PumpedOut
    ensures sent { result.fault ≡ None → EachLink (OutletRun O.given (planned plan.now
        (cut_frames result.receipts.items) (whole_frames result.receipts.items)))
        outlets.old outlets.new }
    ensures front { IsFrontOf O.given plan.now result.receipts.items outlets.old outlets.new }
    // If the port has refused a cut, everything was sent that the plan says of the frames cut before. If it has refused the whole, the held
    // frames were sent too.
    ensures stopped { MatchOption result.fault ⊤ (λ cause. P.fault port.new ≡ Some cause
        → (rung : ℕ) × (B.rings bell.new ≡ B.rings bell.old + rung)
        × IsStopped O.given plan.now rung result.receipts.items (B.ended bell.new)
        outlets.old outlets.new) }
    ensures receipts { result.fault ≡ None → (rung : ℕ)
        × (B.rings bell.new ≡ B.rings bell.old + rung)
        × AreCutsAndWhole (rung + 1) result.receipts.items }
    ensures cuts { (rung : ℕ) × (B.rings bell.new ≡ B.rings bell.old + rung)
        × AreCutsFor rung result.receipts.items }
    ensures ended { result.fault ≡ None → B.ended bell.new ≡ true }
    // The port has made the steps of the receipts, and no other; it may then have refused a call.
    ensures work { PortWork P.makes P.refuses port.old result.receipts.items result.fault
        port.new }
    ensures fault { MatchOption result.fault ⊤
        (λ cause. (P.fault port.new ≡ Some cause) ⊎ (cause ≡ DeskFault.Memory)) }
    ensures ordinal { P.ordinal port.new ≡ P.ordinal port.old }
    ensures share { P.share port.new ≡ P.share port.old + vec_len result.receipts }
{
    let mut outgoing = Outgoing::new(alloc);
    match pump_until_end(rt, alloc, &mut outgoing, port, outlets, bell, plan.deeds()) {
        Ok(()) => outgoing.done(),
        Err(fault) => outgoing.stopped(fault),
    }
}
