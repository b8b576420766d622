ghost use Rattle.std.specs.Prelude.{◌≡◌, [], None, Some, slice_get};
ghost use Rattle.replica.specs.Site.{IsSameSite};
ghost use Rattle.site_desk.specs.Passes.{step_of};
ghost use Rattle.stored_desk.specs.Recorded.{IsLegalHistory};
ghost use Rattle.stored_desk.specs.Saved.{KeepsSaved};

use crate::mark::Mark;
use crate::vault::Vault;
use crate::{CommitFault, Settled, StepStore, StoredLedger};
use site_journal::Receipt;
use std::marker::Model;
use std::sync::Wait;

/// What a closed desk has saved: its store, which has the first steps of the site's history and, where a commit has failed, maybe all
/// steps of that. Contracts see it as the store and the steps that were saved (this project's own).
#[derive(Drop)]
pub struct SavedSteps<S: StepStore, L: StoredLedger> {
    pub(crate) vault: Vault<S, L>,
    pub(crate) mark: Mark<L>,
}

impl<S: StepStore, L: StoredLedger> Model for SavedSteps<S, L> {
    ghost use Rattle.stored_desk.specs.Saved.{SavedState};

    ghost Value = { SavedState S };

    ghost view = { λ s. record { store = s.vault.store; list = s.vault.list } };
}

impl<S: StepStore, L: StoredLedger> SavedSteps<S, L> {
    /// The receipt of a settled step: whichever thread the desk gave it to, the step stands at its position among those that the store
    /// keeps.
    pub fn find<R: Wait>(&mut self, rt: &R, settled: Settled<L>) -> Receipt
        ensures receipt { result ≡ settled }
        ensures found { slice_get self.new.list result.position ≡ Some (step_of result) }
        ensures legal { IsLegalHistory L.base self.new.list }
        ensures keeps { KeepsSaved S.keeps L.base self.new.store self.new.list }
        ensures same { self.new ≡ self.old }
    {
        let SavedSteps { vault, mark } = self;
        vault.find(rt, mark, settled)
    }

    /// Why a commit of the store has failed, if one has. If not, the store has just these steps and can take more, and a crash leaves just
    /// these.
    pub fn fault(&self) -> Option<CommitFault>
        ensures { result ≡ None
            → S.holds self.now.store self.now.list × S.keeps self.now.store self.now.list [] }
    {
        self.vault.fault()
    }

    /// Gives up the steps for the store. A crash leaves these, or these and further ones, and a site that began as the store does can do
    /// them, one after another.
    pub fn into_store(self) -> S
        ensures store { result ≡ self.store }
        ensures keeps { KeepsSaved S.keeps L.base result self.list }
        ensures legal { IsLegalHistory L.base self.list }
        ensures begun { IsSameSite (S.begun result) L.base }
    {
        let SavedSteps { vault, .. } = self;
        vault.into_store()
    }
}
