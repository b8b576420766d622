ghost use Rattle.std.specs.Prelude.{◌≡◌, ◌↔◌, ◌⊎◌, ◌≤◌, IfErr, IfOk, IsTrue, OnErr};
ghost use Rattle.std.specs.Prelude.{length, true};

use crate::done::Done;
use crate::mark::{Mark, SharedClaim};
use crate::vault::Vault;
use crate::{CommitFault, Growth, Settled, StepStore, StoredLedger};
use std::marker::Model;

// What all threads see while one of them commits: how many steps are saved, and the vault, unless a thread has it.
#[derive(Drop)]
pub(crate) struct Shelf<S: StepStore, L: StoredLedger> {
    vault: Option<Vault<S, L>>,
    saved: u64,
    claim: SharedClaim<L>,
    // Why a commit has failed, if one has.
    fault: Option<CommitFault>,
    // How much the store had stored since its base when it last came back.
    since_base: Growth,
}

impl<S: StepStore, L: StoredLedger> Model for Shelf<S, L> {
    ghost use Rattle.std.specs.Prelude.{◌≡◌, is_some};
    ghost use Rattle.stored_desk.specs.Saved.{ShelfState};

    ghost Value = { ShelfState };

    ghost view = { λ s. record { saved = s.saved; has_vault = is_some s.vault } };

    ghost invariant = { λ s. s.claim ≡ s.saved };
}

impl<S: StepStore, L: StoredLedger> Shelf<S, L> {
    // A shelf for a vault.
    pub fn new(vault: Vault<S, L>, mark: &Mark<L>) -> Shelf<S, L>
        ensures saved { result.saved ≡ length vault.list }
        ensures vault { result.has_vault ≡ true }
    {
        let mut vault = vault;
        let saved = vault.len();
        let claim = vault.claim(mark);
        let since_base = vault.since_base();
        Shelf {
            vault: Some(vault),
            saved,
            claim,
            fault: None,
            since_base,
        }
    }

    // How many steps are saved.
    pub fn saved(&self) -> u64
        ensures { result ≡ self.now.saved }
    {
        self.saved
    }

    // Why a commit has failed, if one has. No contract says this.
    pub fn fault(&self) -> Option<CommitFault> {
        self.fault
    }

    // How much the store had stored since its base when it last came back. No contract says how much.
    pub fn since_base(&self) -> Growth {
        self.since_base
    }

    // Whether a thread that needs the first `wanted` steps saved need not wait: the vault is here, or they are
    // saved.
    pub fn is_ready(&self, wanted: u64) -> bool
        ensures { IsTrue result ↔ ((self.now.has_vault ≡ true) ⊎ (wanted ≤ self.now.saved)) }
    {
        self.vault.is_some() || wanted <= self.saved
    }

    // Takes the vault out; `None` if a thread has it.
    pub fn take(&mut self) -> Option<Vault<S, L>>
        ensures { self.new.saved ≡ self.old.saved }
    {
        self.vault.take()
    }

    // Puts the vault back, and shows how many steps are saved, why a commit has failed, and the store's growth. No
    // contract says the last two.
    pub fn put(&mut self, vault: Vault<S, L>, mark: &Mark<L>)
        ensures saved { self.new.saved ≡ length vault.list }
        ensures vault { self.new.has_vault ≡ true }
    {
        let mut vault = vault;
        self.saved = vault.len();
        self.claim = vault.claim(mark);
        self.fault = vault.fault();
        self.since_base = vault.since_base();
        self.vault = Some(vault);
    }

    // The settled receipt of a step, if it is saved. A step that isn't comes back.
    pub fn settled(&mut self, done: Done<L>, mark: &Mark<L>) -> Result<Settled<L>, Done<L>>
        ensures receipt { IfOk result (λ settled. settled ≡ done) }
        ensures back { IfErr result (λ back. back ≡ done) }
        ensures unsaved { OnErr result (self.old.saved ≤ done.position) }
        ensures same { self.new ≡ self.old }
    {
        if done.receipt.position >= self.saved {
            return Err(done);
        }
        let Done { receipt, prefix } = done;
        Ok(Settled {
            receipt,
            prefix,
            claim: mark.claim(&mut self.claim),
        })
    }

    // Gives up the shelf for its vault; `None` if a thread has it. No contract says which.
    pub fn into_vault(self) -> Option<Vault<S, L>> {
        let Shelf { vault, .. } = self;
        vault
    }
}
