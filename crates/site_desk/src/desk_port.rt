ghost use Rattle.std.specs.Prelude.{◌≡◌, ◌⊎◌, ◌+◌, IfErr, IfOk, None, Some};
ghost use Rattle.delta_codec.specs.Decoding.{HasOpening};
ghost use Rattle.site_journal.specs.Journals.{HasFaultAlone, IsRefusedFor, RefusesTake};
ghost use Rattle.site_journal.specs.Receipts.{IsOfCut, IsOfTake, IsOfWhole};
ghost use Rattle.site_desk.specs.Deeds.{IsPossibleSomewhere, IsRefusedSomewhere};
ghost use Rattle.site_desk.specs.Passes.{IsRewound};
ghost use Rattle.site_desk.specs.Ports.{MakesByPass, RefusesByPass, last_fault, lent_pass};

use crate::{Pass, SiteDesk, SiteLedger};
use dots::SharedBytes;
use site_journal::{DecodeFault, DeskFault, Port, Receipt, TakeFault};
use std::sync::Wait;

/// A desk's port for one pass: it waits and returns as the desk does.
#[derive(Drop)]
pub struct DeskPort<'a, L: SiteLedger> {
    desk: &'a SiteDesk<L>,
    pass: &'a mut Pass<L>,
    // The fault of the last call, if it had one.
    fault: Option<DeskFault>,
}

impl<'a, L: SiteLedger> DeskPort<'a, L> {
    /// The port of a desk for this pass. Takes no memory.
    pub fn new(desk: &'a SiteDesk<L>, pass: &'a mut Pass<L>) -> DeskPort<'a, L>
        ensures pass { lent_pass result ≡ pass.entry }
        ensures fault { last_fault result ≡ None }
    {
        DeskPort {
            desk,
            pass,
            fault: None,
        }
    }
}

impl<'a, L: SiteLedger, R: Wait> Port<R> for DeskPort<'a, L> {
    ghost makes = { λ old receipt new.
        MakesByPass L.site L.names (lent_pass old) receipt (lent_pass new) };

    ghost refuses = { λ old cause new. RefusesByPass (lent_pass old) cause (lent_pass new) };

    ghost ordinal = { λ port. (lent_pass port).now.ordinal };

    ghost share = { λ port. (lent_pass port).now.share };

    ghost fault = { last_fault };

    /// A cut. Errors as of `SiteDesk::cut`; a fault leaves the pass as it was.
    fn cut(&mut self, rt: &R) -> Result<Receipt, DeskFault>
        ensures made { IfOk result (λ receipt.
            MakesByPass L.site L.names (lent_pass self.old) receipt (lent_pass self.new)) }
        ensures refused { IfErr result (λ cause.
            RefusesByPass (lent_pass self.old) cause (lent_pass self.new)) }
        ensures ordinal { (lent_pass self.new).now.ordinal ≡ (lent_pass self.old).now.ordinal }
        ensures deed { IfOk result (λ receipt. IsOfCut receipt) }
        ensures pass { IfOk result (λ receipt.
            receipt.pass ≡ (lent_pass self.old).now.ordinal) }
        ensures counted { IfOk result (λ receipt.
            (lent_pass self.new).now.share ≡ (lent_pass self.old).now.share + 1) }
        ensures well { IfOk result (λ receipt. last_fault self.new ≡ None) }
        ensures kept { IfErr result (λ cause.
            (lent_pass self.new).now.share ≡ (lent_pass self.old).now.share) }
        ensures recorded { IfErr result (λ cause. last_fault self.new ≡ Some cause) }
        ensures possible { IfOk result (λ receipt.
            IsPossibleSomewhere L.site L.names receipt.deed) }
        ensures only { IfErr result (λ cause. IsRewound (lent_pass self.old).now cause
            ⊎ ((cause ≡ DeskFault.JournalFull)
            ⊎ ((cause ≡ DeskFault.Exhausted) ⊎ (cause ≡ DeskFault.Memory)))) }
    {
        let desk = self.desk;
        let pass = &mut *self.pass;
        match desk.cut(rt, pass) {
            Ok(receipt) => {
                self.fault = None;
                Ok(receipt)
            }
            Err(fault) => {
                self.fault = Some(fault);
                Err(fault)
            }
        }
    }

    /// A whole. Errors as of `SiteDesk::whole`; a fault leaves the pass as it was.
    fn whole(&mut self, rt: &R) -> Result<Receipt, DeskFault>
        ensures made { IfOk result (λ receipt.
            MakesByPass L.site L.names (lent_pass self.old) receipt (lent_pass self.new)) }
        ensures refused { IfErr result (λ cause.
            RefusesByPass (lent_pass self.old) cause (lent_pass self.new)) }
        ensures ordinal { (lent_pass self.new).now.ordinal ≡ (lent_pass self.old).now.ordinal }
        ensures deed { IfOk result (λ receipt. IsOfWhole receipt) }
        ensures pass { IfOk result (λ receipt.
            receipt.pass ≡ (lent_pass self.old).now.ordinal) }
        ensures counted { IfOk result (λ receipt.
            (lent_pass self.new).now.share ≡ (lent_pass self.old).now.share + 1) }
        ensures well { IfOk result (λ receipt. last_fault self.new ≡ None) }
        ensures kept { IfErr result (λ cause.
            (lent_pass self.new).now.share ≡ (lent_pass self.old).now.share) }
        ensures recorded { IfErr result (λ cause. last_fault self.new ≡ Some cause) }
        ensures possible { IfOk result (λ receipt.
            IsPossibleSomewhere L.site L.names receipt.deed) }
        ensures only { IfErr result (λ cause. IsRewound (lent_pass self.old).now cause
            ⊎ ((cause ≡ DeskFault.JournalFull)
            ⊎ ((cause ≡ DeskFault.Exhausted) ⊎ (cause ≡ DeskFault.Memory)))) }
    {
        let desk = self.desk;
        let pass = &mut *self.pass;
        match desk.whole(rt, pass) {
            Ok(receipt) => {
                self.fault = None;
                Ok(receipt)
            }
            Err(fault) => {
                self.fault = Some(fault);
                Err(fault)
            }
        }
    }

    /// A take. Errors as of `SiteDesk::take`: each returns the bytes, and leaves the pass as
    /// it was.
    fn take(&mut self, rt: &R, bytes: SharedBytes) -> Result<Receipt, (DeskFault, SharedBytes)>
        ensures made { IfOk result (λ receipt.
            MakesByPass L.site L.names (lent_pass self.old) receipt (lent_pass self.new)) }
        ensures refused { IfErr result (λ refused.
            RefusesByPass (lent_pass self.old) refused.0 (lent_pass self.new)) }
        ensures ordinal { (lent_pass self.new).now.ordinal ≡ (lent_pass self.old).now.ordinal }
        ensures deed { IfOk result (λ receipt. IsOfTake bytes receipt) }
        ensures pass { IfOk result (λ receipt.
            receipt.pass ≡ (lent_pass self.old).now.ordinal) }
        ensures counted { IfOk result (λ receipt.
            (lent_pass self.new).now.share ≡ (lent_pass self.old).now.share + 1) }
        ensures well { IfOk result (λ receipt. last_fault self.new ≡ None) }
        ensures back { IfErr result (λ refused. refused.1 ≡ bytes) }
        ensures kept { IfErr result (λ refused.
            (lent_pass self.new).now.share ≡ (lent_pass self.old).now.share) }
        ensures recorded { IfErr result (λ refused. last_fault self.new ≡ Some refused.0) }
        ensures possible { IfOk result (λ receipt.
            IsPossibleSomewhere L.site L.names receipt.deed) }
        ensures decode { (fault : DecodeFault) → IsRefusedFor result (DeskFault.Decode fault)
            → HasFaultAlone bytes fault }
        ensures cause { (fault : TakeFault) → IsRefusedFor result (DeskFault.Take fault)
            → IsRefusedSomewhere L.site L.names bytes fault }
        ensures memory { IsRefusedFor result DeskFault.Memory → HasOpening bytes }
        ensures only { IfErr result (λ refused.
            IsRewound (lent_pass self.old).now refused.0 ⊎ RefusesTake refused.0) }
    {
        let desk = self.desk;
        let pass = &mut *self.pass;
        match desk.take(rt, pass, bytes) {
            Ok(receipt) => {
                self.fault = None;
                Ok(receipt)
            }
            Err((fault, bytes)) => {
                self.fault = Some(fault);
                Err((fault, bytes))
            }
        }
    }
}
