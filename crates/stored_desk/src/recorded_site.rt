//! What lies under the lock of a site with a store.
ghost use Rattle.std.specs.Prelude.{◌≡◌, ◌⊎◌, ◌++◌, ◌∷◌, [], IfErr, IfOk, OnErr, OnOk, false};
ghost use Rattle.std.specs.Prelude.{true};
ghost use Rattle.delta_codec.specs.Decoding.{HasOpening};
ghost use Rattle.site_journal.specs.Journals.{HasAdded, HasDropped, IsRefusedFor};
ghost use Rattle.site_journal.specs.Journals.{RefusesTake};
ghost use Rattle.site_journal.specs.Legal.{LeadAll};
ghost use Rattle.site_journal.specs.Receipts.{IsOfCut, IsOfTake, IsOfWhole};
ghost use Rattle.site_desk.specs.Deeds.{IsLegalReceipt, IsRefusedFrom};
ghost use Rattle.site_desk.specs.Passes.{HasDone, IsRewound, step_of};
ghost use Rattle.stored_desk.specs.Failing.{FailsUnsaved, IsAnsweredAt};
ghost use Rattle.stored_desk.specs.Recorded.{IsGroupOfRest, IsLegalHistory, IsRecorded};

use crate::done::{Done, record, record_take};
use crate::history::{HistoryPrefix, HistoryWriter};
use crate::turns::Turn;
use crate::{StepStore, StoredLedger};
use dots::{Memory, SharedBytes};
use replica::Replica;
use site_desk::{GuardedJournal, Pass};
use site_journal::{DecodeFault, DecodedFrame, DeskFault, DroppedSteps, StepDeed, TakeFault};
use status_report::{Answer, Ask};
use std::marker::Model;

// A site's journal, and the history of its steps. It is seen as both.
#[derive(Drop)]
pub(crate) struct RecordedSite<L: StoredLedger> {
    journal: GuardedJournal<L>,
    prefix: HistoryPrefix<L>,
    writer: HistoryWriter<L>,
    // Whether a step isn't in the history. Nothing is saved from then on.
    is_lost: bool,
    // How many bytes the journal's steps kept beside themselves when they were last taken for a commit, and the reports since.
    taken_bytes: u64,
    // The turn of the steps that are done now. It ends when steps are taken for a commit.
    turn: Turn,
}

impl<L: StoredLedger> Model for RecordedSite<L> {
    ghost use Rattle.std.specs.Prelude.{◌≡◌, false};
    ghost use Rattle.stored_desk.specs.Recorded.{IsRecorded, RecordedState, recorded_code};

    ghost Value = { RecordedState };

    ghost coded = { recorded_code };

    ghost view = { λ s. record { journal = s.journal; history = s.prefix; lost = s.is_lost } };

    ghost invariant = { λ s. s.is_lost ≡ false → IsRecorded L.base s.prefix s.journal };
}

// How many steps a journal holds at most after a commit, unless memory is lacking. Their drop copies the site, so it waits for many; and no
// step is refused for a full journal unless 250 are done between two commits.
const MOST_STEPS_LEFT: usize = 750;

// How many bytes the report has that a step answers with, if it does: such a step has no row.
fn report_bytes(deed: &StepDeed) -> u64 {
    match deed {
        StepDeed::Asked(_, Answer::Report(report)) => report.as_slice().len() as u64,
        _ => 0,
    }
}

impl<L: StoredLedger> RecordedSite<L> {
    // A site with its history, which has each step that the journal has counted (`recorded`); `new` of the desk makes it without a step.
    pub fn new(
        journal: GuardedJournal<L>,
        writer: HistoryWriter<L>,
        prefix: HistoryPrefix<L>,
    ) -> RecordedSite<L>
        requires recorded { IsRecorded L.base prefix journal }
        ensures history { result.history ≡ prefix }
        ensures journal { result.journal ≡ journal }
    {
        RecordedSite {
            journal,
            prefix,
            writer,
            is_lost: false,
            taken_bytes: 0,
            turn: Turn::First,
        }
    }

    // The journal.
    pub fn into_journal(self) -> GuardedJournal<L>
        ensures { result ≡ self.journal }
    {
        let RecordedSite { journal, .. } = self;
        journal
    }

    // How many steps were done.
    pub fn len(&self) -> u64
        ensures { result ≡ self.now.journal.count }
    {
        self.journal.journal().len()
    }

    // How many bytes the journal's steps keep beside themselves, at most 2^64 - 1. No contract says how many.
    pub fn payload_bytes(&self) -> u64 {
        self.journal.journal().payload_bytes()
    }

    // How many bytes the steps keep beside themselves that were done since steps were last taken for a commit, without those of reports,
    // which aren't stored. No contract says how many.
    pub fn untaken_bytes(&self) -> u64 {
        self.payload_bytes().saturating_sub(self.taken_bytes)
    }

    // The turn of the steps that are done now, and after the steps are taken the next one. No contract says which.
    pub fn turn(&self) -> Turn {
        self.turn
    }

    // The fault of a call that fails with `fault` unless the journal refuses it before: 1 `Rewound`, where the journal is shorter than the
    // pass has seen; 2 `JournalFull`, where no step may be added; 3 `fault`.
    pub fn first_fault(&self, pass: &Pass<L>, fault: DeskFault) -> DeskFault
        ensures { IsRewound pass.now result
            ⊎ ((result ≡ DeskFault.JournalFull) ⊎ (result ≡ fault)) }
    {
        self.journal.first_fault(pass, fault)
    }

    // Asks the site. `copy` is a copy of the ask for the receipt, if there was memory for it. Faults, in order: 1 `Unsaved`, where a step
    // before it isn't in the history; 2 those of `GuardedJournal::call`; 3 `Unsaved`, where its own step, which was done, can't be added to
    // the history. After 1 and 2 no step was done.
    pub fn call(
        &mut self,
        pass: &mut Pass<L>,
        asked: &Ask,
        copy: Result<Ask, Memory>,
    ) -> Result<Done<L>, DeskFault>
        requires { IfOk copy (λ copied. copied ≡ asked.now) }
        ensures done { IfOk result (λ done. HasDone pass.old done pass.new) }
        ensures added { IfOk result (λ done.
            HasAdded self.old.journal (step_of done) self.new.journal) }
        ensures history { IfOk result (λ done.
            self.new.history ≡ self.old.history ++ step_of done ∷ []) }
        ensures answer { IfOk result (λ done. IsAnsweredAt L.base asked.now done) }
        ensures legal { IfOk result (λ done. IsLegalReceipt L.base done) }
        ensures fails { IfErr result (λ fault. FailsUnsaved L.base pass.old fault pass.new) }
        ensures only { IfErr result (λ fault. IsRewound pass.old fault
            ⊎ ((fault ≡ DeskFault.JournalFull)
            ⊎ ((fault ≡ DeskFault.Memory) ⊎ (fault ≡ DeskFault.Unsaved)))) }
    {
        if self.is_lost {
            drop(copy);
            return Err(DeskFault::Unsaved);
        }
        let RecordedSite {
            journal,
            prefix,
            writer,
            is_lost,
            taken_bytes,
            ..
        } = self;
        let receipt = journal.call(pass, asked, copy)?;
        *taken_bytes = taken_bytes.saturating_add(report_bytes(&receipt.deed));
        record(prefix, writer, is_lost, receipt)
    }

    // Puts the site's buffer into its next frame, if there is something in it. Faults as of a call, with 2 as of `GuardedJournal::cut`.
    pub fn cut(&mut self, pass: &mut Pass<L>) -> Result<Done<L>, DeskFault>
        ensures done { IfOk result (λ done. HasDone pass.old done pass.new) }
        ensures added { IfOk result (λ done.
            HasAdded self.old.journal (step_of done) self.new.journal) }
        ensures history { IfOk result (λ done.
            self.new.history ≡ self.old.history ++ step_of done ∷ []) }
        ensures cut { IfOk result (λ done. IsOfCut done) }
        ensures legal { IfOk result (λ done. IsLegalReceipt L.base done) }
        ensures fails { IfErr result (λ fault. FailsUnsaved L.base pass.old fault pass.new) }
        ensures only { IfErr result (λ fault. IsRewound pass.old fault
            ⊎ ((fault ≡ DeskFault.JournalFull) ⊎ ((fault ≡ DeskFault.Exhausted)
            ⊎ ((fault ≡ DeskFault.Memory) ⊎ (fault ≡ DeskFault.Unsaved))))) }
    {
        if self.is_lost {
            return Err(DeskFault::Unsaved);
        }
        let RecordedSite {
            journal,
            prefix,
            writer,
            is_lost,
            ..
        } = self;
        let receipt = journal.cut(pass)?;
        record(prefix, writer, is_lost, receipt)
    }

    // Puts all that the site knows into its next frame. Faults as of a call, with 2 as of `GuardedJournal::whole`.
    pub fn whole(&mut self, pass: &mut Pass<L>) -> Result<Done<L>, DeskFault>
        ensures done { IfOk result (λ done. HasDone pass.old done pass.new) }
        ensures added { IfOk result (λ done.
            HasAdded self.old.journal (step_of done) self.new.journal) }
        ensures history { IfOk result (λ done.
            self.new.history ≡ self.old.history ++ step_of done ∷ []) }
        ensures whole { IfOk result (λ done. IsOfWhole done) }
        ensures legal { IfOk result (λ done. IsLegalReceipt L.base done) }
        ensures fails { IfErr result (λ fault. FailsUnsaved L.base pass.old fault pass.new) }
        ensures only { IfErr result (λ fault. IsRewound pass.old fault
            ⊎ ((fault ≡ DeskFault.JournalFull) ⊎ ((fault ≡ DeskFault.Exhausted)
            ⊎ ((fault ≡ DeskFault.Memory) ⊎ (fault ≡ DeskFault.Unsaved))))) }
    {
        if self.is_lost {
            return Err(DeskFault::Unsaved);
        }
        let RecordedSite {
            journal,
            prefix,
            writer,
            is_lost,
            ..
        } = self;
        let receipt = journal.whole(pass)?;
        record(prefix, writer, is_lost, receipt)
    }

    // Lets the site take a decoded frame. A fault returns the bytes. Faults as of a call, with 2 as of `GuardedJournal::take`.
    pub fn take(
        &mut self,
        pass: &mut Pass<L>,
        decoded: DecodedFrame,
    ) -> Result<Done<L>, (DeskFault, SharedBytes)>
        ensures done { IfOk result (λ done. HasDone pass.old done pass.new) }
        ensures added { IfOk result (λ done.
            HasAdded self.old.journal (step_of done) self.new.journal) }
        ensures history { IfOk result (λ done.
            self.new.history ≡ self.old.history ++ step_of done ∷ []) }
        ensures took { IfOk result (λ done. IsOfTake decoded done) }
        ensures legal { IfOk result (λ done. IsLegalReceipt L.base done) }
        ensures no_decode { (fault : DecodeFault)
            → IsRefusedFor result (DeskFault.Decode fault) → ⊥ }
        ensures refused { (fault : TakeFault) → IsRefusedFor result (DeskFault.Take fault)
            → IsRefusedFrom L.base pass.old.seen decoded fault }
        ensures memory { IsRefusedFor result DeskFault.Memory → HasOpening decoded }
        ensures fails { IfErr result (λ refused. FailsUnsaved L.base pass.old refused.0 pass.new) }
        ensures only { IfErr result (λ refused. IsRewound pass.old refused.0
            ⊎ (RefusesTake refused.0 ⊎ (refused.0 ≡ DeskFault.Unsaved))) }
        ensures back { IfErr result (λ refused. refused.1 ≡ decoded) }
    {
        if self.is_lost {
            return Err((DeskFault::Unsaved, decoded.into_bytes()));
        }
        let RecordedSite {
            journal,
            prefix,
            writer,
            is_lost,
            ..
        } = self;
        let receipt = match journal.take(pass, decoded) {
            Ok(receipt) => receipt,
            Err((fault, decoded)) => return Err((fault, decoded.into_bytes())),
        };
        record_take(prefix, writer, is_lost, receipt)
    }

    // The steps behind the first `saved`, made ready for a commit, with the whole history. Faults, in order: 1 `Unsaved`, where a step
    // isn't in the history, the journal has dropped one of them, or fewer than `saved` were done; 2 `Memory`.
    fn rest<S: StepStore>(
        &self,
        store: &S,
        saved: u64,
    ) -> Result<(S::Group, HistoryPrefix<L>), DeskFault>
        ensures rest { IfOk result (λ rest. IsGroupOfRest S.groups rest.0 rest.1 saved) }
        ensures legal { IfOk result (λ rest. IsLegalHistory L.base rest.1) }
        ensures whole { IfOk result (λ rest. rest.1 ≡ self.now.history) }
        ensures fault { IfErr result (λ fault.
            (fault ≡ DeskFault.Unsaved) ⊎ (fault ≡ DeskFault.Memory)) }
    {
        let journal = self.journal.journal();
        let start = journal.start();
        let steps = journal.steps();
        if self.is_lost || saved < start || saved - start > steps.len() as u64 {
            return Err(DeskFault::Unsaved);
        }
        match store.group(&steps[(saved - start) as usize..]) {
            Ok(group) => Ok((group, self.prefix.again())),
            Err(_) => Err(DeskFault::Memory),
        }
    }

    // Does as `rest`, with its faults, and notes that these steps are taken for a commit: their turn ends.
    fn take_rest<S: StepStore>(
        &mut self,
        store: &S,
        saved: u64,
    ) -> Result<(S::Group, HistoryPrefix<L>), DeskFault>
        ensures rest { IfOk result (λ rest. IsGroupOfRest S.groups rest.0 rest.1 saved) }
        ensures legal { IfOk result (λ rest. IsLegalHistory L.base rest.1) }
        ensures whole { IfOk result (λ rest. rest.1 ≡ self.old.history) }
        ensures same { self.new ≡ self.old }
        ensures fault { IfErr result (λ fault.
            (fault ≡ DeskFault.Unsaved) ⊎ (fault ≡ DeskFault.Memory)) }
    {
        let rest = self.rest(store, saved)?;
        self.taken_bytes = self.payload_bytes();
        self.turn = self.turn.next();
        Ok(rest)
    }

    // Drops the journal's steps, returns them, and sets `taken_bytes` to 0 with them (no contract says these two). The fault is `Memory`,
    // and none is dropped.
    fn drop_steps(&mut self) -> Result<DroppedSteps, DeskFault>
        ensures dropped { OnOk result (HasDropped self.old.journal self.new.journal) }
        ensures unchanged { OnErr result (self.new ≡ self.old) }
        ensures history { self.new.history ≡ self.old.history }
        ensures fault { IfErr result (λ fault. fault ≡ DeskFault.Memory) }
    {
        let RecordedSite {
            journal,
            taken_bytes,
            ..
        } = self;
        let Ok(dropped) = journal.checkpoint() else {
            return Err(DeskFault::Memory);
        };
        *taken_bytes = 0;
        Ok(dropped)
    }

    // Does as `rest`, and drops the journal's steps, which it returns; their turn ends. Faults, in order: 1 those of `rest`; 2 `Memory`,
    // where there is none for the drop. A fault changes nothing.
    fn take_all<S: StepStore>(
        &mut self,
        store: &S,
        saved: u64,
    ) -> Result<(S::Group, HistoryPrefix<L>, DroppedSteps), DeskFault>
        ensures rest { IfOk result (λ rest. IsGroupOfRest S.groups rest.0 rest.1 saved) }
        ensures legal { IfOk result (λ rest. IsLegalHistory L.base rest.1) }
        ensures whole { IfOk result (λ rest. rest.1 ≡ self.old.history) }
        ensures dropped { OnOk result (HasDropped self.old.journal self.new.journal) }
        ensures unchanged { OnErr result (self.new ≡ self.old) }
        ensures history { self.new.history ≡ self.old.history }
        ensures fault { IfErr result (λ fault.
            (fault ≡ DeskFault.Unsaved) ⊎ (fault ≡ DeskFault.Memory)) }
    {
        let (group, history) = self.rest(store, saved)?;
        match self.drop_steps() {
            Ok(dropped) => {
                self.turn = self.turn.next();
                Ok((group, history, dropped))
            }
            Err(fault) => {
                drop(group);
                drop(history);
                Err(fault)
            }
        }
    }

    // Whether no step may be added to the journal. No contract says this.
    pub fn is_full(&self) -> bool {
        self.journal.journal().is_full()
    }

    // Whether a commit of the journal's steps drops them too: it holds more than 750, or no step may be added.
    fn is_long(&self) -> bool {
        self.is_full() || self.journal.journal().steps().len() > MOST_STEPS_LEFT
    }

    // Does as `take_all` with `drops`, and else as `take_rest`, with their faults; but where the journal holds many steps it does as
    // `take_all` if there is memory for that. Returns the steps that were dropped, too. A fault changes nothing.
    pub fn take_steps<S: StepStore>(
        &mut self,
        store: &S,
        saved: u64,
        drops: bool,
    ) -> Result<(S::Group, HistoryPrefix<L>, Option<DroppedSteps>), DeskFault>
        ensures rest { IfOk result (λ rest. IsGroupOfRest S.groups rest.0 rest.1 saved) }
        ensures legal { IfOk result (λ rest. IsLegalHistory L.base rest.1) }
        ensures fault { IfErr result (λ fault.
            (fault ≡ DeskFault.Unsaved) ⊎ (fault ≡ DeskFault.Memory)) }
    {
        if drops || self.is_long() {
            match self.take_all(store, saved) {
                Ok((group, history, dropped)) => return Ok((group, history, Some(dropped))),
                Err(fault) if drops => return Err(fault),
                Err(_) => {}
            }
        }
        let (group, history) = self.take_rest(store, saved)?;
        Ok((group, history, None))
    }

    // A copy of the site, to which its history leads, and the history. Faults, in order: 1 `Unsaved`, where a step isn't in the history;
    // 2 `Memory`.
    pub fn copy(&self) -> Result<(Replica, HistoryPrefix<L>), DeskFault>
        ensures lead { IfOk result (λ copy. LeadAll L.base copy.1 copy.0) }
        ensures history { IfOk result (λ copy. copy.1 ≡ self.now.history) }
        ensures fault { IfErr result (λ fault.
            (fault ≡ DeskFault.Unsaved) ⊎ (fault ≡ DeskFault.Memory)) }
    {
        if self.is_lost {
            return Err(DeskFault::Unsaved);
        }
        match self.journal.journal().replica().copy() {
            Ok(replica) => Ok((replica, self.prefix.again())),
            Err(_) => Err(DeskFault::Memory),
        }
    }

    // As `take_rest`, and with a copy of the site after the whole history. Faults, in order: 1 those of `copy`; 2 those of `take_rest`.
    pub fn take_base<S: StepStore>(
        &mut self,
        store: &S,
        saved: u64,
    ) -> Result<(S::Group, HistoryPrefix<L>, Replica), DeskFault>
        ensures rest { IfOk result (λ base. IsGroupOfRest S.groups base.0 base.1 saved) }
        ensures legal { IfOk result (λ base. IsLegalHistory L.base base.1) }
        ensures lead { IfOk result (λ base. LeadAll L.base base.1 base.2) }
        ensures same { self.new ≡ self.old }
        ensures fault { IfErr result (λ fault.
            (fault ≡ DeskFault.Unsaved) ⊎ (fault ≡ DeskFault.Memory)) }
    {
        let (copy, before) = self.copy()?;
        drop(before);
        match self.take_rest(store, saved) {
            Ok((group, history)) => Ok((group, history, copy)),
            Err(fault) => {
                drop(copy);
                Err(fault)
            }
        }
    }
}
