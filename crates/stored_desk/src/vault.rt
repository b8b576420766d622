//! The store, as the thread holds it that commits.
ghost use Rattle.std.specs.Prelude.{◌≡◌, ◌⊎◌, [], Err, IfErr, None, OnErr, OnOk, Some, false};
ghost use Rattle.std.specs.Prelude.{length, slice_get, true};
ghost use mathlib.Core.List.{IsPrefix};
ghost use Rattle.replica.specs.Site.{IsSameSite};
ghost use Rattle.site_journal.specs.Legal.{LeadAll};
ghost use Rattle.site_desk.specs.Passes.{step_of};
ghost use Rattle.stored_desk.specs.Recorded.{IsGroupOfRest, IsLegalHistory};
ghost use Rattle.stored_desk.specs.Saved.{KeepsSaved};

use crate::history::HistoryPrefix;
use crate::mark::{Keeper, Mark, SharedClaim};
use crate::recorded_site::RecordedSite;
use crate::turns::Turn;
use crate::{CommitFault, Growth, Settled, StepStore, StoredLedger};
use replica::Replica;
use site_journal::{DeskFault, Receipt};
use std::marker::Model;
use std::sync::{Mutex, Wait};

// A store, with the steps that it has, which are a prefix of the site's history, and the keeper of their number. After a failed commit it
// is broken.
#[derive(Drop)]
pub(crate) struct Vault<S: StepStore, L: StoredLedger> {
    store: S,
    is_broken: bool,
    // Why its commit has failed, if one has.
    fault: Option<CommitFault>,
    prefix: HistoryPrefix<L>,
    keeper: Keeper<L>,
    // The turn that has begun when steps of the site were last taken.
    turn: Turn,
    // How many steps the last commit has saved.
    group_len: u64,
}

impl<S: StepStore, L: StoredLedger> Model for Vault<S, L> {
    ghost use Rattle.std.specs.Prelude.{◌≡◌, [], false, length};
    ghost use Rattle.replica.specs.Site.{IsSameSite};
    ghost use Rattle.stored_desk.specs.Recorded.{IsLegalHistory};
    ghost use Rattle.stored_desk.specs.Saved.{KeepsSaved, VaultState};

    ghost Value = { VaultState S };

    ghost view = { λ v. record { store = v.store; list = v.prefix; broken = v.is_broken } };

    ghost invariant = { λ v. (v.keeper ≡ length v.prefix) × IsLegalHistory L.base v.prefix
        × KeepsSaved S.keeps L.base v.store v.prefix
        × (v.is_broken ≡ false → S.holds v.store v.prefix × S.keeps v.store v.prefix [])
        × IsSameSite (S.begun v.store) L.base };
}

impl<S: StepStore, L: StoredLedger> Vault<S, L> {
    // A vault over a store without a step that begins as the ledger's base, with a prefix and a keeper of no step.
    pub fn new(store: S, prefix: HistoryPrefix<L>, keeper: Keeper<L>) -> Vault<S, L>
        requires prefix { prefix ≡ [] }
        requires keeper { keeper ≡ 0 }
        requires legal { IsLegalHistory L.base [] }
        requires holds { S.holds store [] }
        requires keeps { S.keeps store [] [] }
        requires begun { IsSameSite (S.begun store) L.base }
        ensures list { result.list ≡ [] }
        ensures broken { result.broken ≡ false }
    {
        Vault {
            store,
            is_broken: false,
            fault: None,
            prefix,
            keeper,
            turn: Turn::First,
            group_len: 0,
        }
    }

    // How many steps it has saved.
    pub fn len(&self) -> u64
        ensures { result ≡ length self.now.list }
    {
        self.prefix.len()
    }

    // Gives up the vault for its store, which has all that was saved, and maybe all steps of a commit that failed.
    pub fn into_store(self) -> S
        ensures store { result ≡ self.store }
        ensures keeps { KeepsSaved S.keeps L.base result self.list }
        ensures legal { IsLegalHistory L.base self.list }
        ensures begun { IsSameSite (S.begun result) L.base }
    {
        let Vault { store, .. } = self;
        store
    }

    // Why a commit has failed, if one has.
    pub fn fault(&self) -> Option<CommitFault>
        ensures { result ≡ None
            → S.holds self.now.store self.now.list × S.keeps self.now.store self.now.list [] }
    {
        if self.is_broken {
            Some(self.fault.unwrap_or(CommitFault::Other))
        } else {
            None
        }
    }

    // The turn that has begun when steps of the site were last taken: that of each step which is done now. No contract says which.
    pub fn turn(&self) -> Turn {
        self.turn
    }

    // Whether the last commit has saved several steps, as it does where several threads ask the site at once. No contract says this.
    pub fn is_shared(&self) -> bool {
        self.group_len > 1
    }

    // How much its store has stored since its base. No contract says how much.
    pub fn since_base(&self) -> Growth {
        self.store.since_base()
    }

    // A claim of all that it has saved.
    pub fn claim(&mut self, mark: &Mark<L>) -> SharedClaim<L>
        ensures claim { result ≡ length self.old.list }
        ensures same { self.new ≡ self.old }
    {
        mark.share(&mut self.keeper)
    }

    // Saves a group in one commit: the steps of `history` behind those that are saved, which were just taken, so their turn has ended. The
    // only fault is `Unsaved`, where the commit fails: the vault is then broken, and has saved the steps from before.
    fn save<R: Wait>(
        &mut self,
        rt: &R,
        mark: &Mark<L>,
        group: S::Group,
        history: HistoryPrefix<L>,
    ) -> Result<(), DeskFault>
        requires well { self.old.broken ≡ false }
        requires rest { IsGroupOfRest S.groups group history (length self.old.list) }
        requires legal { IsLegalHistory L.base history }
        ensures list { OnOk result (self.new.list ≡ history) }
        ensures grows { IsPrefix self.old.list self.new.list }
        ensures well { OnOk result (self.new.broken ≡ false) }
        ensures same { OnErr result (self.new.list ≡ self.old.list) }
        ensures broken { OnErr result (self.new.broken ≡ true) }
        ensures fault { IfErr result (λ fault. fault ≡ DeskFault.Unsaved) }
    {
        self.turn = self.turn.next();
        self.is_broken = true;
        self.prefix.compare(&history);
        match self.store.commit(group) {
            Ok(()) => {}
            Err(fault) => {
                self.fault = Some(fault);
                drop(history);
                return Err(DeskFault::Unsaved);
            }
        }
        mark.raise(rt, &mut self.keeper, history.len());
        self.group_len = history.len().saturating_sub(self.prefix.len());
        self.prefix = history;
        self.is_broken = false;
        Ok(())
    }

    // Saves all steps that the site has done, in one commit; the site's journal drops its steps too with `drops`, or where it holds many.
    // They are released once the site's lock is free. Faults, in order: 1 `Unsaved`, where the vault is broken; 2 `Unsaved` and `Memory`,
    // as of `RecordedSite::take_steps`; 3 `Unsaved`, where the commit fails: the vault is then broken, and with `drops` the journal has
    // dropped its steps. After 1 and 2 vault and journal are as before.
    pub fn save_rest<R: Wait>(
        &mut self,
        rt: &R,
        mark: &Mark<L>,
        site: &Mutex<RecordedSite<L>>,
        drops: bool,
    ) -> Result<(), DeskFault>
        ensures grows { IsPrefix self.old.list self.new.list }
        ensures none { self.old.broken ≡ true → OnOk result ⊥ }
        ensures same { OnErr result (self.new.list ≡ self.old.list) }
        ensures well { OnOk result (self.new.broken ≡ false) }
        ensures memory { result ≡ Err DeskFault.Memory → self.new ≡ self.old }
        ensures fault { IfErr result (λ fault.
            (fault ≡ DeskFault.Unsaved) ⊎ (fault ≡ DeskFault.Memory)) }
    {
        if self.is_broken {
            return Err(DeskFault::Unsaved);
        }
        let saved = self.prefix.len();
        let taken = site.lock(rt).take_steps(&self.store, saved, drops);
        match taken {
            Ok((group, history, dropped)) => {
                drop(dropped);
                self.save(rt, mark, group, history)
            }
            Err(fault) => Err(fault),
        }
    }

    // Makes a base of the site after all saved steps, `site`, and puts it in place of them. Faults, in order: 1 `Memory`, which changes
    // nothing; 2 `Unsaved`, and the vault is then broken.
    fn put_base(&mut self, site: Replica) -> Result<(), DeskFault>
        requires well { self.old.broken ≡ false }
        requires lead { LeadAll L.base self.old.list site }
        ensures list { self.new.list ≡ self.old.list }
        ensures memory { result ≡ Err DeskFault.Memory → self.new ≡ self.old }
        ensures broken { result ≡ Err DeskFault.Unsaved → self.new.broken ≡ true }
        ensures fault { IfErr result (λ fault.
            (fault ≡ DeskFault.Memory) ⊎ (fault ≡ DeskFault.Unsaved)) }
    {
        let Ok(base) = self.store.base(site) else {
            return Err(DeskFault::Memory);
        };
        self.is_broken = true;
        match self.store.replace_base(base) {
            Ok(()) => {
                self.is_broken = false;
                Ok(())
            }
            Err(fault) => {
                self.fault = Some(fault);
                Err(DeskFault::Unsaved)
            }
        }
    }

    // Saves all steps that the site has done, and puts the site after them in their place in the store. The journal keeps its steps. Faults,
    // in order: 1 those of `save_rest`, and `Memory` for a copy of the site, which changes nothing; 2 those of `put_base`: after its
    // `Memory` the steps are saved, and the base is as before.
    pub fn save_base<R: Wait>(
        &mut self,
        rt: &R,
        mark: &Mark<L>,
        site: &Mutex<RecordedSite<L>>,
    ) -> Result<(), DeskFault>
        ensures grows { IsPrefix self.old.list self.new.list }
        ensures none { self.old.broken ≡ true → OnOk result ⊥ }
        ensures memory { result ≡ Err DeskFault.Memory → self.new.broken ≡ false }
        ensures fault { IfErr result (λ fault.
            (fault ≡ DeskFault.Unsaved) ⊎ (fault ≡ DeskFault.Memory)) }
    {
        if self.is_broken {
            return Err(DeskFault::Unsaved);
        }
        let saved = self.prefix.len();
        let taken = site.lock(rt).take_base(&self.store, saved);
        match taken {
            Ok((group, history, copy)) => {
                if let Err(fault) = self.save(rt, mark, group, history) {
                    drop(copy);
                    return Err(fault);
                }
                self.put_base(copy)
            }
            Err(fault) => Err(fault),
        }
    }

    // The receipt of a settled step, which stands at its position among the steps that were saved.
    pub fn find<R: Wait>(&mut self, rt: &R, mark: &Mark<L>, settled: Settled<L>) -> Receipt
        ensures receipt { result ≡ settled }
        ensures found { slice_get self.new.list result.position ≡ Some (step_of result) }
        ensures legal { IsLegalHistory L.base self.new.list }
        ensures keeps { KeepsSaved S.keeps L.base self.new.store self.new.list }
        ensures same { self.new ≡ self.old }
    {
        let Settled {
            receipt,
            prefix,
            claim,
        } = settled;
        mark.confirm(rt, &mut self.keeper, claim, self.prefix.len());
        prefix.compare(&self.prefix);
        drop(prefix);
        receipt
    }
}
