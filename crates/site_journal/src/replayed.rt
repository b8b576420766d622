//! Does stored steps again.
ghost use Rattle.std.specs.Prelude.{◌≡◌, ◌⊎◌, ◌↔◌, ℕ, Err, IfErr, IfOk, OnErr, OnOk};
ghost use Rattle.site_journal.specs.Journals.{HasAdded, IsFull, IsUnchanged};
ghost use Rattle.replica.specs.Site.{SiteState};
ghost use Rattle.site_journal.specs.Legal.{Leads};
ghost use Rattle.site_journal.specs.Replaying.{CanCome, IsAgain, replay_fault_of};

use crate::{DeskFault, Journaled, ReplayFault, Step, StepDeed};
use dots::SharedBytes;

// Lets the site take the frame that the bytes encode, by the pass of this number. Errors as of `Journaled::take`; `Memory` also for
// a copy of the bytes.
fn take_again(journal: &mut Journaled, pass: u32, bytes: &SharedBytes) -> Result<Step, DeskFault>
    ensures added { IfOk result (λ done. HasAdded journal.old done journal.new) }
    ensures pass { IfOk result (λ done. done.pass ≡ pass) }
    ensures took { IfOk result (λ done. done.deed ≡ StepDeed.Took bytes.now) }
    ensures full { (result ≡ Err DeskFault.JournalFull) ↔ IsFull journal.old }
    ensures refused { (to : SiteState) → Leads journal.old.replica (StepDeed.Took bytes.now) to
        → IfErr result (λ fault. (fault ≡ DeskFault.JournalFull) ⊎ (fault ≡ DeskFault.Memory)) }
    ensures unchanged { OnErr result (IsUnchanged journal.old journal.new) }
{
    if journal.is_full() {
        return Err(DeskFault::JournalFull);
    }
    let Ok(copy) = bytes.copy() else {
        return Err(DeskFault::Memory);
    };
    match journal.take(pass, copy) {
        Ok(done) => Ok(done),
        Err((fault, copy)) => {
            drop(copy);
            Err(fault)
        }
    }
}

// Does again what a step did, by the same pass, and returns the new step. Errors as of `call`, `cut`, `whole` and `take`.
fn done_again(journal: &mut Journaled, step: &Step) -> Result<Step, DeskFault>
    ensures added { IfOk result (λ done. HasAdded journal.old done journal.new) }
    ensures pass { IfOk result (λ done. done.pass ≡ step.now.pass) }
    ensures again { IfOk result (λ done. IsAgain step.now.deed done.deed) }
    ensures full { (result ≡ Err DeskFault.JournalFull) ↔ IsFull journal.old }
    ensures refused { CanCome journal.old step.now → IfErr result
        (λ fault. (fault ≡ DeskFault.JournalFull) ⊎ (fault ≡ DeskFault.Memory)) }
    ensures unchanged { OnErr result (IsUnchanged journal.old journal.new) }
{
    match &step.deed {
        StepDeed::Asked(asked, _) => journal.call(step.pass, asked),
        StepDeed::Cut(_) => journal.cut(step.pass),
        StepDeed::Whole(_) => journal.whole(step.pass),
        StepDeed::Took(bytes) => take_again(journal, step.pass, bytes),
    }
}

// The fault of a replay for the fault of the step at this position.
fn replay_fault(fault: DeskFault, position: u64) -> ReplayFault
    ensures { result ≡ replay_fault_of position fault }
{
    match fault {
        DeskFault::JournalFull => ReplayFault::JournalFull,
        DeskFault::Memory => ReplayFault::Memory,
        _ => ReplayFault::Damaged(position),
    }
}

impl Journaled {
    /// Does a stored step again, by the same pass: after `Ok` the journal has exactly this step more, after `Damaged` it may have a
    /// different one more, else none. Errors, in order: 1 `JournalFull`, exactly where the journal holds its limit of steps, or
    /// 2^40 were done in all; 2 `Damaged` with the position of the step, only where the step can't be next: the site refuses it, or
    /// gives another answer or other bytes; 3 `Memory`, which may replace `Damaged`.
    pub fn replay(&mut self, step: &Step) -> Result<(), ReplayFault>
        ensures added { OnOk result (HasAdded self.old step.now self.new) }
        ensures full { (result ≡ Err ReplayFault.JournalFull) ↔ IsFull self.old }
        ensures position { (position : ℕ) → result ≡ Err (ReplayFault.Damaged position)
            → position ≡ self.old.count }
        ensures damaged { (position : ℕ) → result ≡ Err (ReplayFault.Damaged position)
            → CanCome self.old step.now → ⊥ }
        ensures memory { result ≡ Err ReplayFault.Memory → IsUnchanged self.old self.new }
    {
        let position = self.len();
        let done = match done_again(self, step) {
            Ok(done) => done,
            Err(fault) => return Err(replay_fault(fault, position)),
        };
        let is_same = done.deed.same(&step.deed);
        drop(done);
        if is_same {
            Ok(())
        } else {
            Err(ReplayFault::Damaged(position))
        }
    }
}
