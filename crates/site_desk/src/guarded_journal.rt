ghost use Rattle.std.specs.Prelude.{ℕ, ◌≡◌, ◌≤◌, ◌<◌, ◌↔◌, ◌⊎◌, ◌+◌, ◌-◌, ◌^◌, Err, IfErr, IfOk};
ghost use Rattle.std.specs.Prelude.{IsSome, MatchOption, OnErr, OnOk, min};
ghost use Rattle.dots.specs.declared.limits.TheConstants.{MOST_COUNT};
ghost use Rattle.delta.specs.DeltaStates.{IsEmpty};
ghost use Rattle.replica.specs.Site.{IsSameSite};
ghost use Rattle.site_journal.specs.Keeping.{kept_by_steps};
ghost use Rattle.site_journal.specs.Journals.{HasAdded, HasDropped, IsAnswerTo};
ghost use Rattle.site_journal.specs.Journals.{IsFull, IsJournal, IsOfSite, IsRefusedFor};
ghost use Rattle.site_journal.specs.Journals.{IsRefusedFrame, IsUnchanged, RefusesTake};
ghost use Rattle.site_journal.specs.Legal.{IsAsked};
ghost use Rattle.site_journal.specs.Receipts.{IsOfCut, IsOfTake, IsOfWhole};
ghost use Rattle.site_desk.specs.Deeds.{IsReached};
ghost use Rattle.site_desk.specs.Passes.{HasDone, IsOfAsk, IsRewound, last_receipt, one_more};
ghost use Rattle.site_desk.specs.Passes.{step_of};

use crate::{Pass, SiteLedger};
use dots::{MOST_COUNT, Memory};
use site_journal::{
    DecodeFault, DecodedFrame, DeskFault, DroppedSteps, Journaled, Receipt, Step, StepDeed,
    TakeFault,
};
use status_report::{Answer, Ask};
use std::marker::Model;
use std::sync::ledger::{Book, Ledger};

/// The value under the lock of a desk: the site's journal, and the book that counts its steps. Contracts see it as the journal.
#[derive(Drop)]
pub struct GuardedJournal<L: SiteLedger> {
    journal: Journaled,
    book: Book<L>,
}

impl<L: SiteLedger> Model for GuardedJournal<L> {
    ghost use Rattle.site_journal.specs.Journals.{JournalState, journal_code};
    ghost use Rattle.site_desk.specs.Guarded.{IsGuarded};

    ghost Value = { JournalState };

    ghost coded = { journal_code };

    ghost view = { λ g. g.journal };

    ghost invariant = { λ g. IsGuarded L.site L.names L.limit L.base g.book.total g.journal };
}

// Counts a step that a pass has done at this position, and returns its receipt.
fn receipt_of<L: Ledger>(
    book: &mut Book<L>,
    pass: &mut Pass<L>,
    position: u64,
    step: Step,
) -> Receipt
    requires few { position ≤ MOST_COUNT }
    ensures pass { result.pass ≡ step.pass }
    ensures position { result.position ≡ position }
    ensures deed { result.deed ≡ step.deed }
    ensures counted { pass.new ≡ one_more pass.old position }
    ensures total { book.new.total ≡ book.old.total + 1 }
{
    pass.count(book, position);
    Receipt {
        pass: step.pass,
        position,
        deed: step.deed,
    }
}

impl<L: SiteLedger> GuardedJournal<L> {
    /// A journal of the ledger's site, limit and base, without steps, with a book that has counted none.
    pub fn open(journal: Journaled, book: Book<L>) -> GuardedJournal<L>
        requires begun { journal.count ≡ 0 }
        requires site { IsOfSite L.site L.names journal }
        requires limit { journal.limit ≡ L.limit }
        requires base { journal.base ≡ L.base }
        requires total { book.total ≡ 0 }
        ensures { result ≡ journal }
    {
        GuardedJournal { journal, book }
    }

    /// The journal.
    pub fn journal(&self) -> &Journaled
        ensures journal { result.now ≡ self.now }
        ensures begun { self.now.start ≡ 0 → IsSameSite L.base self.now.base }
    {
        &self.journal
    }

    /// The journal, and the book, which has counted its steps.
    pub fn into_parts(self) -> (Journaled, Book<L>)
        ensures journal { result.0 ≡ self }
        ensures counted { result.1.total ≡ self.count }
        ensures site { IsOfSite L.site L.names self }
        ensures limit { self.limit ≡ L.limit }
        ensures begun { self.start ≡ 0 → IsSameSite L.base self.base }
    {
        let GuardedJournal { journal, book } = self;
        (journal, book)
    }

    // The journal's length. If the pass has seen a longer journal, the fault is `Rewound` with that length.
    fn len_for(&self, pass: &Pass<L>) -> Result<u64, DeskFault>
        ensures journal { IsJournal self.now }
        ensures site { IsOfSite L.site L.names self.now }
        ensures reached { IsReached L.base self.now.count self.now.replica }
        ensures len { IfOk result (λ len. len ≡ self.now.count) }
        ensures seen { OnOk result (pass.now.seen ≤ self.now.count) }
        ensures limit { IfOk result (λ len. len ≤ MOST_COUNT) }
        ensures shorter { OnErr result (self.now.count < pass.now.seen) }
        ensures fault { IfErr result (λ fault.
            fault ≡ DeskFault.Rewound self.now.count) }
    {
        let len = self.journal.len();
        if len < pass.seen() {
            return Err(DeskFault::Rewound(len));
        }
        Ok(len)
    }

    /// The fault of a call that otherwise fails with `fault`. In order: 1 `Rewound`, exactly where the pass has seen a longer
    /// journal; 2 `JournalFull`, if no step may be added; 3 `fault`.
    pub fn first_fault(&self, pass: &Pass<L>, fault: DeskFault) -> DeskFault
        ensures site { IsOfSite L.site L.names self.now }
        ensures reached { IsReached L.base self.now.count self.now.replica }
        ensures rewound { self.now.count < pass.now.seen
            → result ≡ DeskFault.Rewound self.now.count }
        ensures full { pass.now.seen ≤ self.now.count → IsFull self.now
            → result ≡ DeskFault.JournalFull }
        ensures other { pass.now.seen ≤ self.now.count → (IsFull self.now → ⊥)
            → result ≡ fault }
        ensures only { IsRewound pass.now result
            ⊎ ((result ≡ DeskFault.JournalFull) ⊎ (result ≡ fault)) }
    {
        match self.len_for(pass) {
            Err(rewound) => rewound,
            Ok(_) if self.journal.is_full() => DeskFault::JournalFull,
            Ok(_) => fault,
        }
    }

    /// Asks the site for a pass, and returns the answer. Errors, in order: 1 `Rewound`, exactly where the pass has seen a longer
    /// journal; 2 those of `Journaled::answer`. An error leaves the pass, the steps, and what the site says as they were.
    pub fn answer(&mut self, pass: &mut Pass<L>, asked: &Ask) -> Result<Answer, DeskFault>
        ensures site { IsOfSite L.site L.names self.old }
        ensures reached { IsReached L.base self.old.count self.old.replica }
        ensures done { IfOk result (λ answer. HasDone pass.old
            (last_receipt pass.new (StepDeed.Asked asked.now answer)) pass.new) }
        ensures position { OnOk result (pass.new.seen ≡ self.old.count + 1) }
        ensures added { IfOk result (λ answer. HasAdded self.old
            (record { pass = pass.old.ordinal; deed = StepDeed.Asked asked.now answer })
            self.new) }
        ensures answer { IfOk result (λ answer.
            IsAsked self.old.replica asked.now answer self.new.replica) }
        ensures rewound { (len : ℕ) → (result ≡ Err (DeskFault.Rewound len))
            ↔ ((len ≡ self.old.count) × (len < pass.old.seen)) }
        ensures full { (result ≡ Err DeskFault.JournalFull)
            ↔ ((pass.old.seen ≤ self.old.count) × IsFull self.old) }
        ensures only { IfErr result (λ fault. IsRewound pass.old fault
            ⊎ ((fault ≡ DeskFault.JournalFull) ⊎ (fault ≡ DeskFault.Memory))) }
        ensures unchanged { OnErr result (IsUnchanged self.old self.new) }
        ensures pass { OnErr result (pass.new ≡ pass.old) }
    {
        let len = self.len_for(pass)?;
        let GuardedJournal { journal, book } = self;
        let answer = journal.answer(pass.ordinal(), asked)?;
        pass.count(book, len);
        Ok(answer)
    }

    /// Asks the site for a pass, and returns the receipt. `copy` is a copy of the ask for the receipt, if there was memory for it:
    /// else nothing is asked, and the fault is `Memory` where it isn't an earlier one. Errors as of `answer`.
    pub fn call(
        &mut self,
        pass: &mut Pass<L>,
        asked: &Ask,
        copy: Result<Ask, Memory>,
    ) -> Result<Receipt, DeskFault>
        requires { IfOk copy (λ copied. copied ≡ asked.now) }
        ensures site { IsOfSite L.site L.names self.old }
        ensures reached { IsReached L.base self.old.count self.old.replica }
        ensures done { IfOk result (λ receipt. HasDone pass.old receipt pass.new) }
        ensures position { IfOk result (λ receipt. receipt.position ≡ self.old.count) }
        ensures added { IfOk result (λ receipt.
            HasAdded self.old (step_of receipt) self.new) }
        ensures ask { IfOk result (λ receipt. IsOfAsk asked.now receipt) }
        ensures answer { IfOk result (λ receipt. IsAnswerTo self.old.replica asked.now
            self.new.replica receipt.deed) }
        ensures rewound { (len : ℕ) → (result ≡ Err (DeskFault.Rewound len))
            ↔ ((len ≡ self.old.count) × (len < pass.old.seen)) }
        ensures full { (result ≡ Err DeskFault.JournalFull)
            ↔ ((pass.old.seen ≤ self.old.count) × IsFull self.old) }
        ensures only { IfErr result (λ fault. IsRewound pass.old fault
            ⊎ ((fault ≡ DeskFault.JournalFull) ⊎ (fault ≡ DeskFault.Memory))) }
        ensures unchanged { OnErr result (IsUnchanged self.old self.new) }
        ensures pass { OnErr result (pass.new ≡ pass.old) }
    {
        let Ok(copy) = copy else {
            return Err(self.first_fault(pass, DeskFault::Memory));
        };
        match self.answer(pass, asked) {
            Ok(answer) => Ok(Receipt {
                pass: pass.ordinal(),
                position: pass.seen() - 1,
                deed: StepDeed::Asked(copy, answer),
            }),
            Err(fault) => {
                drop(copy);
                Err(fault)
            }
        }
    }

    /// Puts the site's buffer into its next frame for a pass, if the buffer isn't empty. Errors, in order: 1 `Rewound`, as of an
    /// answer; 2 those of `Journaled::cut`. An error changes nothing.
    pub fn cut(&mut self, pass: &mut Pass<L>) -> Result<Receipt, DeskFault>
        ensures site { IsOfSite L.site L.names self.old }
        ensures reached { IsReached L.base self.old.count self.old.replica }
        ensures done { IfOk result (λ receipt. HasDone pass.old receipt pass.new) }
        ensures position { IfOk result (λ receipt. receipt.position ≡ self.old.count) }
        ensures added { IfOk result (λ receipt.
            HasAdded self.old (step_of receipt) self.new) }
        ensures cut { IfOk result (λ receipt. IsOfCut receipt) }
        ensures rewound { (len : ℕ) → (result ≡ Err (DeskFault.Rewound len))
            ↔ ((len ≡ self.old.count) × (len < pass.old.seen)) }
        ensures full { (result ≡ Err DeskFault.JournalFull)
            ↔ ((pass.old.seen ≤ self.old.count) × IsFull self.old) }
        ensures exhausted { (result ≡ Err DeskFault.Exhausted)
            ↔ ((pass.old.seen ≤ self.old.count) × ((IsFull self.old → ⊥)
            × ((IsEmpty self.old.replica.pending → ⊥)
            × (self.old.replica.frames ≡ MOST_COUNT)))) }
        ensures only { IfErr result (λ fault. IsRewound pass.old fault
            ⊎ ((fault ≡ DeskFault.JournalFull)
            ⊎ ((fault ≡ DeskFault.Exhausted) ⊎ (fault ≡ DeskFault.Memory)))) }
        ensures unchanged { OnErr result (self.new ≡ self.old) }
        ensures pass { OnErr result (pass.new ≡ pass.old) }
    {
        let position = self.len_for(pass)?;
        let GuardedJournal { journal, book } = self;
        let step = journal.cut(pass.ordinal())?;
        Ok(receipt_of(book, pass, position, step))
    }

    /// Puts everything that the site knows into its next frame, for a pass. Errors, in order: 1 `Rewound`, as of an answer; 2 those
    /// of `Journaled::whole`. An error changes nothing.
    pub fn whole(&mut self, pass: &mut Pass<L>) -> Result<Receipt, DeskFault>
        ensures site { IsOfSite L.site L.names self.old }
        ensures reached { IsReached L.base self.old.count self.old.replica }
        ensures done { IfOk result (λ receipt. HasDone pass.old receipt pass.new) }
        ensures position { IfOk result (λ receipt. receipt.position ≡ self.old.count) }
        ensures added { IfOk result (λ receipt.
            HasAdded self.old (step_of receipt) self.new) }
        ensures whole { IfOk result (λ receipt. IsOfWhole receipt) }
        ensures rewound { (len : ℕ) → (result ≡ Err (DeskFault.Rewound len))
            ↔ ((len ≡ self.old.count) × (len < pass.old.seen)) }
        ensures full { (result ≡ Err DeskFault.JournalFull)
            ↔ ((pass.old.seen ≤ self.old.count) × IsFull self.old) }
        ensures exhausted { (result ≡ Err DeskFault.Exhausted)
            ↔ ((pass.old.seen ≤ self.old.count) × ((IsFull self.old → ⊥)
            × (self.old.replica.frames ≡ MOST_COUNT))) }
        ensures only { IfErr result (λ fault. IsRewound pass.old fault
            ⊎ ((fault ≡ DeskFault.JournalFull)
            ⊎ ((fault ≡ DeskFault.Exhausted) ⊎ (fault ≡ DeskFault.Memory)))) }
        ensures unchanged { OnErr result (self.new ≡ self.old) }
        ensures pass { OnErr result (pass.new ≡ pass.old) }
    {
        let position = self.len_for(pass)?;
        let GuardedJournal { journal, book } = self;
        let step = journal.whole(pass.ordinal())?;
        Ok(receipt_of(book, pass, position, step))
    }

    /// Takes a decoded frame for a pass. An error returns the frame too, and leaves the pass, the steps, and what the site says as
    /// they were. Errors, in order: 1 `Rewound`, as of an answer; 2 those of `Journaled::take_decoded`.
    pub fn take(
        &mut self,
        pass: &mut Pass<L>,
        decoded: DecodedFrame,
    ) -> Result<Receipt, (DeskFault, DecodedFrame)>
        ensures site { IsOfSite L.site L.names self.old }
        ensures reached { IsReached L.base self.old.count self.old.replica }
        ensures done { IfOk result (λ receipt. HasDone pass.old receipt pass.new) }
        ensures position { IfOk result (λ receipt. receipt.position ≡ self.old.count) }
        ensures added { IfOk result (λ receipt.
            HasAdded self.old (step_of receipt) self.new) }
        ensures took { IfOk result (λ receipt. IsOfTake decoded receipt) }
        ensures rewound { (len : ℕ) → IsRefusedFor result (DeskFault.Rewound len)
            ↔ ((len ≡ self.old.count) × (len < pass.old.seen)) }
        ensures full { IsRefusedFor result DeskFault.JournalFull
            ↔ ((pass.old.seen ≤ self.old.count) × IsFull self.old) }
        ensures refused { (fault : TakeFault) → IsRefusedFor result (DeskFault.Take fault)
            → IsRefusedFrame self.old.replica decoded fault }
        ensures seen { (fault : TakeFault) → IsRefusedFor result (DeskFault.Take fault)
            → pass.old.seen ≤ self.old.count }
        ensures no_decode { (fault : DecodeFault)
            → IsRefusedFor result (DeskFault.Decode fault) → ⊥ }
        ensures only { IfErr result (λ refused.
            IsRewound pass.old refused.0 ⊎ RefusesTake refused.0) }
        ensures back { IfErr result (λ refused. refused.1 ≡ decoded) }
        ensures unchanged { OnErr result (IsUnchanged self.old self.new) }
        ensures pass { OnErr result (pass.new ≡ pass.old) }
    {
        let position = match self.len_for(pass) {
            Ok(len) => len,
            Err(fault) => return Err((fault, decoded)),
        };
        let GuardedJournal { journal, book } = self;
        let step = match journal.take_decoded(pass.ordinal(), decoded) {
            Ok(step) => step,
            Err(refused) => return Err(refused),
        };
        Ok(receipt_of(book, pass, position, step))
    }

    /// Drops the journal's steps; the book keeps its count. Returns the memory of what it dropped. Fails only when out of memory,
    /// and then drops none.
    pub fn checkpoint(&mut self) -> Result<DroppedSteps, Memory>
        ensures dropped { OnOk result (HasDropped self.old self.new) }
        ensures unchanged { OnErr result (self.new ≡ self.old) }
    {
        let GuardedJournal { journal, .. } = self;
        journal.checkpoint()
    }

    /// Drops the journal's steps if their payload is more than `bytes` bytes, and returns the memory of what it dropped; else
    /// `None`. Fails only when out of memory, and then drops none.
    pub fn checkpoint_above(&mut self, bytes: u64) -> Result<Option<DroppedSteps>, Memory>
        ensures above { IfOk result (λ dropped. IsSome dropped
            ↔ (bytes < min (kept_by_steps self.old.steps) (2 ^ 64 - 1))) }
        ensures done { IfOk result (λ dropped. MatchOption dropped
            (self.new ≡ self.old)
            (λ _. HasDropped self.old self.new)) }
        ensures unchanged { OnErr result (self.new ≡ self.old) }
    {
        if self.journal.payload_bytes() <= bytes {
            return Ok(None);
        }
        let dropped = self.checkpoint()?;
        Ok(Some(dropped))
    }

    /// Drops the journal's steps if that makes room for a step, and returns the memory of what it dropped. `None`: a step may be added
    /// already, or 2^40 were done in all, and the journal stays full. Fails only when out of memory, and then drops none.
    pub fn checkpoint_if_full(&mut self) -> Result<Option<DroppedSteps>, Memory>
        ensures full { IfOk result (λ dropped. IsSome dropped
            ↔ (IsFull self.old × (self.old.count < MOST_COUNT))) }
        ensures done { IfOk result (λ dropped. MatchOption dropped
            (self.new ≡ self.old)
            (λ _. HasDropped self.old self.new)) }
        ensures unchanged { OnErr result (self.new ≡ self.old) }
    {
        if !self.journal.is_full() || self.journal.count() >= MOST_COUNT {
            return Ok(None);
        }
        let dropped = self.checkpoint()?;
        Ok(Some(dropped))
    }
}
