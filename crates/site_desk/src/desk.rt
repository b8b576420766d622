ghost use Rattle.std.specs.Prelude.{◌≡◌, ◌<◌, ◌≤◌, ◌⊎◌, IfErr, IfOk, OnErr};
ghost use Rattle.delta_codec.specs.Decoding.{HasOpening};
ghost use Rattle.site_journal.specs.Journals.{HasFaultAlone, IsOfSite, IsRefusedFor};
ghost use Rattle.site_journal.specs.Journals.{RefusesTake};
ghost use Rattle.site_journal.specs.Receipts.{IsOfCut, IsOfTake, IsOfWhole};
ghost use Rattle.site_desk.specs.Deeds.{IsAnsweredSomewhere, IsLegalReceipt, IsPossibleSomewhere};
ghost use Rattle.site_desk.specs.Deeds.{IsRefusedFrom, IsRefusedSomewhere};
ghost use Rattle.site_desk.specs.Passes.{AreNewPasses, HasDone, IsOfAsk, IsRewound};
ghost use Rattle.site_desk.specs.Passes.{last_receipt};

use crate::guarded_journal::GuardedJournal;
use crate::{Gate, Pass, SiteLedger};
use dots::{Memory, SharedBytes};
use site_journal::{
    DecodeFault, DecodedFrame, DeskFault, DroppedSteps, Journaled, Receipt, StepDeed, TakeFault,
};
use status_report::{Answer, Ask};
use std::alloc::Global;
use std::marker::Model;
use std::sync::ledger::Blank;
use std::sync::{Mutex, Wait};

/// The most passes that a desk may have.
pub const MOST_PASSES: u32 = 256;

/// A site that several threads call, one at a time, each with a pass of its own. A lock guards the site's journal, which is legal
/// whenever the lock is free; so each receipt is of a step that is legal at its position. `L` names the ledger that counts the
/// steps, so that the type checker refuses a pass of another desk.
#[derive(Drop)]
pub struct SiteDesk<L: SiteLedger> {
    pub(crate) lock: Mutex<GuardedJournal<L>>,
    pub(crate) passes: u32,
}

impl<L: SiteLedger> Model for SiteDesk<L> {
    ghost use Rattle.std.specs.Prelude.{◌≡◌, ◌<◌};
    ghost use Rattle.site_desk.specs.Passes.{DeskState};

    ghost Value = { DeskState };

    ghost view = { λ d. record { passes = d.passes } };

    ghost invariant = { λ d. (d.passes ≡ L.parts) × (0 < d.passes) };
}

impl<L: SiteLedger> SiteDesk<L> {
    /// A desk over a journal of the ledger's site, limit and base, without steps, and its passes, 1 to 256, with the numbers 0, 1 and
    /// so on. `blank` is the new ledger, with as many parts as there are passes. When out of memory, returns the journal, and drops
    /// the ledger.
    pub fn new(
        alloc: Global,
        blank: Blank,
        journal: Journaled,
        passes: u32,
    ) -> Result<(SiteDesk<L>, Vec<Pass<L>>), (Memory, Journaled)>
        requires name { blank.name ≡ L.name }
        requires ledger { blank.parts ≡ L.parts }
        requires parts { blank.parts ≡ passes }
        requires some { 1 ≤ passes }
        requires most { passes ≤ MOST_PASSES }
        requires begun { journal.count ≡ 0 }
        requires site { IsOfSite L.site L.names journal }
        requires limit { journal.limit ≡ L.limit }
        requires base { journal.base ≡ L.base }
        ensures desk { IfOk result (λ made. made.0.passes ≡ passes) }
        ensures passes { IfOk result (λ made. AreNewPasses passes made.1.items) }
        ensures back { IfErr result (λ refused. refused.1 ≡ journal) }
    {
        let mut all = Vec::new(alloc);
        if all.reserve(passes as usize).is_err() {
            return Err((Memory, journal));
        }
        let (book, mut rest) = blank.open::<L>();
        for ordinal in 0..passes {
            let share = rest.split_off(1, 0);
            all.push_reserved(Pass::new(ordinal, share));
        }
        let desk = SiteDesk {
            lock: Mutex::new(GuardedJournal::open(journal, book)),
            passes,
        };
        Ok((desk, all))
    }

    /// Makes a desk again from the value under the lock of a desk with as many passes.
    pub fn over(guarded: GuardedJournal<L>, passes: u32) -> SiteDesk<L>
        requires parts { passes ≡ L.parts }
        requires some { 0 < passes }
        ensures { result.passes ≡ passes }
    {
        SiteDesk {
            lock: Mutex::new(guarded),
            passes,
        }
    }

    /// Takes the desk apart: the value under its lock, and the number of its passes.
    pub fn into_guarded(self) -> (GuardedJournal<L>, u32)
        ensures passes { result.1 ≡ self.passes }
        ensures parts { result.1 ≡ L.parts }
        ensures some { 0 < result.1 }
    {
        let SiteDesk { lock, passes } = self;
        (lock.into_inner(), passes)
    }

    /// Asks the site, and returns its answer. Waits until the lock is free. The ask is copied once, into the step. Errors, in order:
    /// 1 `Rewound`, if the journal is shorter than the pass has seen; 2 `JournalFull`, if no step may be added; 3 `Memory`. A fault
    /// leaves the pass, the steps, and what the site says as they were.
    pub fn answer<R: Wait>(
        &self,
        rt: &R,
        pass: &mut Pass<L>,
        asked: &Ask,
    ) -> Result<Answer, DeskFault>
        ensures done { IfOk result (λ answer. HasDone pass.old
            (last_receipt pass.new (StepDeed.Asked asked.now answer)) pass.new) }
        ensures possible { IfOk result (λ answer.
            IsAnsweredSomewhere L.site L.names asked.now (StepDeed.Asked asked.now answer)) }
        ensures reached { IfOk result (λ answer. IsLegalReceipt L.base
            (last_receipt pass.new (StepDeed.Asked asked.now answer))) }
        ensures only { IfErr result (λ fault. IsRewound pass.old fault
            ⊎ ((fault ≡ DeskFault.JournalFull) ⊎ (fault ≡ DeskFault.Memory))) }
        ensures unchanged { OnErr result (pass.new ≡ pass.old) }
    {
        self.lock.lock(rt).answer(pass, asked)
    }

    /// Asks the site, and returns the receipt of the step. Waits until the lock is free. Errors, in order: 1 `Rewound`, if the
    /// journal is shorter than the pass has seen; 2 `JournalFull`, if no step may be added; 3 `Memory`. A fault leaves the pass, the
    /// steps, and what the site says as they were.
    pub fn call<R: Wait>(
        &self,
        rt: &R,
        pass: &mut Pass<L>,
        asked: &Ask,
    ) -> Result<Receipt, DeskFault>
        ensures done { IfOk result (λ receipt. HasDone pass.old receipt pass.new) }
        ensures ask { IfOk result (λ receipt. IsOfAsk asked.now receipt) }
        ensures possible { IfOk result (λ receipt.
            IsAnsweredSomewhere L.site L.names asked.now receipt.deed) }
        ensures reached { IfOk result (λ receipt. IsLegalReceipt L.base receipt) }
        ensures only { IfErr result (λ fault. IsRewound pass.old fault
            ⊎ ((fault ≡ DeskFault.JournalFull) ⊎ (fault ≡ DeskFault.Memory))) }
        ensures unchanged { OnErr result (pass.new ≡ pass.old) }
    {
        let copy = asked.copy();
        self.lock.lock(rt).call(pass, asked, copy)
    }

    /// Asks the site as `call` does, with its errors, and then calls the gate once, with the number `turn`, while it still holds the
    /// lock, also after an error. A gate that doesn't return blocks every caller of its desk.
    pub fn call_gated<R: Wait, G: Gate>(
        &self,
        rt: &R,
        pass: &mut Pass<L>,
        asked: &Ask,
        gate: &mut G,
        turn: u64,
    ) -> Result<Receipt, DeskFault>
        ensures done { IfOk result (λ receipt. HasDone pass.old receipt pass.new) }
        ensures ask { IfOk result (λ receipt. IsOfAsk asked.now receipt) }
        ensures possible { IfOk result (λ receipt.
            IsAnsweredSomewhere L.site L.names asked.now receipt.deed) }
        ensures reached { IfOk result (λ receipt. IsLegalReceipt L.base receipt) }
        ensures only { IfErr result (λ fault. IsRewound pass.old fault
            ⊎ ((fault ≡ DeskFault.JournalFull) ⊎ (fault ≡ DeskFault.Memory))) }
        ensures unchanged { OnErr result (pass.new ≡ pass.old) }
        ensures gate { G.called gate.old turn gate.new }
    {
        let copy = asked.copy();
        let mut guarded = self.lock.lock(rt);
        let answered = guarded.call(pass, asked, copy);
        gate.inside(turn);
        answered
    }

    /// Puts the site's buffer into its next frame, and returns the receipt; for an empty buffer, that of a step without a frame.
    /// Waits until the lock is free. Errors, in order: 1 `Rewound`, 2 `JournalFull`, as of a call; 3 `Exhausted`, if the buffer isn't
    /// empty and the site has made 2^40 frames; 4 `Memory`. A fault leaves the pass, the steps, and what the site says as they were.
    pub fn cut<R: Wait>(&self, rt: &R, pass: &mut Pass<L>) -> Result<Receipt, DeskFault>
        ensures done { IfOk result (λ receipt. HasDone pass.old receipt pass.new) }
        ensures cut { IfOk result (λ receipt. IsOfCut receipt) }
        ensures possible { IfOk result (λ receipt.
            IsPossibleSomewhere L.site L.names receipt.deed) }
        ensures reached { IfOk result (λ receipt. IsLegalReceipt L.base receipt) }
        ensures only { IfErr result (λ fault. IsRewound pass.old fault
            ⊎ ((fault ≡ DeskFault.JournalFull)
            ⊎ ((fault ≡ DeskFault.Exhausted) ⊎ (fault ≡ DeskFault.Memory)))) }
        ensures unchanged { OnErr result (pass.new ≡ pass.old) }
    {
        self.lock.lock(rt).cut(pass)
    }

    /// Puts everything that the site knows into its next frame, and returns the receipt; the buffer stays. Waits until the lock is
    /// free. Errors as of a cut, but `Exhausted` wherever the site has made 2^40 frames. A fault leaves the pass, the steps, and what
    /// the site says as they were.
    pub fn whole<R: Wait>(&self, rt: &R, pass: &mut Pass<L>) -> Result<Receipt, DeskFault>
        ensures done { IfOk result (λ receipt. HasDone pass.old receipt pass.new) }
        ensures whole { IfOk result (λ receipt. IsOfWhole receipt) }
        ensures possible { IfOk result (λ receipt.
            IsPossibleSomewhere L.site L.names receipt.deed) }
        ensures reached { IfOk result (λ receipt. IsLegalReceipt L.base receipt) }
        ensures only { IfErr result (λ fault. IsRewound pass.old fault
            ⊎ ((fault ≡ DeskFault.JournalFull)
            ⊎ ((fault ≡ DeskFault.Exhausted) ⊎ (fault ≡ DeskFault.Memory)))) }
        ensures unchanged { OnErr result (pass.new ≡ pass.old) }
    {
        self.lock.lock(rt).whole(pass)
    }

    /// Lets the site take the frame that the bytes encode. An error returns the bytes too. Decodes the frame first, and then waits
    /// until the lock is free, so that other threads wait only while the site joins it. Errors, in order: 1 `Rewound`, 2
    /// `JournalFull`, as of a call; 3 `Decode`, with the fault of the bytes, or `BadRange` if more bytes follow their frame; 4
    /// `Take`, with the fault for which the site refuses the frame; 5 `Memory`, which may replace `Take`, and a `Decode` whose fault
    /// is after the heading, but never one whose fault is in it. A fault leaves the pass, the steps, and what the site says as they
    /// were.
    pub fn take<R: Wait>(
        &self,
        rt: &R,
        pass: &mut Pass<L>,
        bytes: SharedBytes,
    ) -> Result<Receipt, (DeskFault, SharedBytes)>
        ensures done { IfOk result (λ receipt. HasDone pass.old receipt pass.new) }
        ensures took { IfOk result (λ receipt. IsOfTake bytes receipt) }
        ensures possible { IfOk result (λ receipt.
            IsPossibleSomewhere L.site L.names receipt.deed) }
        ensures reached { IfOk result (λ receipt. IsLegalReceipt L.base receipt) }
        ensures decode { (fault : DecodeFault) → IsRefusedFor result (DeskFault.Decode fault)
            → HasFaultAlone bytes fault }
        ensures refused { (fault : TakeFault) → IsRefusedFor result (DeskFault.Take fault)
            → IsRefusedSomewhere L.site L.names bytes fault }
        ensures reached_refused { (fault : TakeFault)
            → IsRefusedFor result (DeskFault.Take fault)
            → IsRefusedFrom L.base pass.old.seen bytes fault }
        ensures memory { IsRefusedFor result DeskFault.Memory → HasOpening bytes }
        ensures only { IfErr result (λ refused.
            IsRewound pass.old refused.0 ⊎ RefusesTake refused.0) }
        ensures back { IfErr result (λ refused. refused.1 ≡ bytes) }
        ensures unchanged { OnErr result (pass.new ≡ pass.old) }
    {
        let alloc = bytes.allocator();
        let decoded = match DecodedFrame::decode(alloc, bytes) {
            Ok(decoded) => decoded,
            Err((fault, bytes)) => return Err((self.lock.lock(rt).first_fault(pass, fault), bytes)),
        };
        let taken = self.lock.lock(rt).take(pass, decoded);
        match taken {
            Ok(receipt) => Ok(receipt),
            Err((fault, decoded)) => Err((fault, decoded.into_bytes())),
        }
    }

    /// Drops the steps of the journal: the site's state becomes its base, and positions continue. Waits until the lock is free.
    /// Fails only when out of memory, and then drops none. The memory of the steps is released once the lock is free again. No
    /// contract says what is dropped.
    pub fn checkpoint<R: Wait>(&self, rt: &R) -> Result<(), Memory> {
        let dropped = self.lock.lock(rt).checkpoint();
        drop(dropped?);
        Ok(())
    }

    /// Drops the steps of the journal if their payload is more than `bytes` bytes, as `checkpoint` does. Returns whether it did; no
    /// contract says this. Fails only when out of memory, and then drops none.
    pub fn checkpoint_above<R: Wait>(&self, rt: &R, bytes: u64) -> Result<bool, Memory> {
        let dropped = self.lock.lock(rt).checkpoint_above(bytes);
        released(dropped)
    }

    /// Drops the steps of the journal if that makes room for a step, as `checkpoint` does, so that of several threads that find it full
    /// one alone does so. Returns whether it did; no contract says this. After 2^40 steps in all the journal stays full, and no call
    /// drops any. Fails only when out of memory, and then drops none.
    pub fn checkpoint_if_full<R: Wait>(&self, rt: &R) -> Result<bool, Memory> {
        let dropped = self.lock.lock(rt).checkpoint_if_full();
        released(dropped)
    }
}

// Releases the memory of what a journal has dropped, if it has. Returns whether it has, or the error. No contract says which.
fn released(dropped: Result<Option<DroppedSteps>, Memory>) -> Result<bool, Memory> {
    match dropped? {
        Some(dropped) => {
            drop(dropped);
            Ok(true)
        }
        None => Ok(false),
    }
}
