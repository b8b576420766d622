ghost use Rattle.std.specs.Prelude.{◌≡◌, ◌⊎◌, [], IfErr, IfOk};
ghost use Rattle.delta_codec.specs.Decoding.{HasOpening};
ghost use Rattle.replica.specs.Site.{IsSameSite};
ghost use Rattle.site_journal.specs.Journals.{HasFaultAlone, IsRefusedFor, RefusesTake};
ghost use Rattle.site_journal.specs.Receipts.{IsOfCut, IsOfTake, IsOfWhole};
ghost use Rattle.site_desk.specs.Deeds.{IsLegalReceipt, IsRefusedFrom};
ghost use Rattle.site_desk.specs.Passes.{HasDone, IsRewound};
ghost use Rattle.stored_desk.specs.Failing.{Fails, FailsUnsaved, IsAnsweredAt};

use crate::done::Done;
use crate::mark::Mark;
use crate::recorded_site::RecordedSite;
use crate::shelf::Shelf;
use crate::turns::{StoreReturns, Turn};
use crate::vault::Vault;
use crate::{
    CommitFault, Growth, NewHistory, NewMark, SavedSteps, Settled, StepStore, StoredLedger,
};
use dots::SharedBytes;
use site_desk::{Pass, SiteDesk};
use site_journal::{DecodeFault, DecodedFrame, DeskFault, Receipt, TakeFault};
use status_report::Ask;
use std::marker::Model;
use std::sync::atomic::{AtomicBool, AtomicU64, Ordering};
use std::sync::{Condvar, Mutex, MutexGuard, Wait};
use std::thread;
use std::time::Duration;

// How many bytes the steps that aren't saved may keep beside themselves where a step is begun: 4 MiB.
const MOST_UNSAVED_BYTES: u64 = 4 << 20;

// Sleeps for about a millisecond.
fn pause<R: Wait>(rt: &R) {
    AtomicU64::new(0).park_timeout(rt, 0, Duration::from_millis(1));
}

// How steps are saved: alone; with a drop of the journal's steps; with the site after them in their place.
#[derive(Clone, Copy)]
enum Way {
    Steps,
    Dropped,
    Base,
}

/// A site with a store, which several threads call, each by a pass of its own. A step is done in memory, in the order of a lock; its
/// receipt is returned once the step is durable, but that of a take at once. A thread that finds the store free commits all steps that
/// aren't saved yet, and holds no lock meanwhile; all who wait for one of these steps then go on. Calls that begin after a failed commit do
/// no step (this project's own).
#[derive(Drop)]
pub struct StoredDesk<S: StepStore, L: StoredLedger> {
    site: Mutex<RecordedSite<L>>,
    shelf: Mutex<Shelf<S, L>>,
    // Where threads wait until the store comes back from a commit.
    returns: StoreReturns,
    // Whether a commit has failed.
    has_failed: AtomicBool,
    mark: Mark<L>,
    passes: u32,
}

impl<S: StepStore, L: StoredLedger> Model for StoredDesk<S, L> {
    ghost use Rattle.std.specs.Prelude.{◌≡◌, ◌<◌};
    ghost use Rattle.site_desk.specs.Passes.{DeskState};

    ghost Value = { DeskState };

    ghost view = { λ d. record { passes = d.passes } };

    ghost invariant = { λ d. (d.passes ≡ L.parts) × (0 < d.passes) };
}

impl<S: StepStore, L: StoredLedger> StoredDesk<S, L> {
    /// A desk that has done no step, over a store without a step that begins as the desk's site. History and mark are new ones, which the
    /// ledger names. An error returns desk and store, where the desk has done a step, and drops the other two. It takes no memory.
    pub fn new(
        desk: SiteDesk<L>,
        store: S,
        history: NewHistory,
        mark: NewMark,
    ) -> Result<StoredDesk<S, L>, (SiteDesk<L>, S)>
        requires history { history ≡ L.history }
        requires mark { mark ≡ L.mark }
        requires holds { S.holds store [] }
        requires keeps { S.keeps store [] [] }
        requires begun { IsSameSite (S.begun store) L.base }
        ensures passes { IfOk result (λ stored. stored.passes ≡ desk.passes) }
        ensures desk { IfErr result (λ refused. refused.0 ≡ desk) }
        ensures store { IfErr result (λ refused. refused.1 ≡ store) }
    {
        let (journal, passes) = desk.into_guarded();
        if journal.journal().len() != 0 {
            drop(history);
            drop(mark);
            return Err((SiteDesk::over(journal, passes), store));
        }
        let (writer, prefix) = history.named::<L>();
        let (mark, keeper) = mark.named::<L>();
        let vault = Vault::new(store, prefix.again(), keeper);
        let shelf = Shelf::new(vault, &mark);
        Ok(StoredDesk {
            site: Mutex::new(RecordedSite::new(journal, writer, prefix)),
            shelf: Mutex::new(shelf),
            returns: StoreReturns::new(),
            has_failed: AtomicBool::new(false),
            mark,
            passes,
        })
    }

    /// Why a commit of the store has failed, if one has. Calls that begin later do no step. It waits for no commit. No contract says this.
    pub fn fault<R: Wait>(&self, rt: &R) -> Option<CommitFault> {
        self.shelf.lock(rt).fault()
    }

    // Whether a commit of the store has failed, as `fault` says it. It takes no lock.
    fn has_failed(&self) -> bool {
        self.has_failed.load(Ordering::SeqCst)
    }

    // Notes whether a commit has failed by which this vault is broken. No contract says this.
    fn note_failure(&self, vault: &Vault<S, L>) {
        if vault.fault().is_some() {
            self.has_failed.store(true, Ordering::SeqCst);
        }
    }

    // Saves all that the site has done, by the vault, in this way. Faults as of `Vault::save_rest` and `Vault::save_base`.
    fn save_by<R: Wait>(&self, rt: &R, vault: &mut Vault<S, L>, way: Way) -> Result<(), DeskFault>
        ensures { IfErr result (λ fault.
            (fault ≡ DeskFault.Unsaved) ⊎ (fault ≡ DeskFault.Memory)) }
    {
        match way {
            Way::Steps => vault.save_rest(rt, &self.mark, &self.site, false),
            Way::Dropped => vault.save_rest(rt, &self.mark, &self.site, true),
            Way::Base => vault.save_base(rt, &self.mark, &self.site),
        }
    }

    // Waits at this place until the first `wanted` steps are saved or the store is free. Returns the shelf, which is locked.
    fn ready_shelf<R: Wait>(
        &self,
        rt: &R,
        place: &Condvar,
        wanted: u64,
    ) -> MutexGuard<'_, Shelf<S, L>> {
        let shelf = self.shelf.lock(rt);
        place.wait_while(rt, shelf, |shelf| !shelf.is_ready(wanted))
    }

    // Waits until the first `wanted` steps are saved or the store is free; then, if they aren't saved, takes the store, saves all that the
    // site has done, in this way, puts the store back, and wakes those who wait for that, after a fault too. The shelf isn't locked
    // meanwhile. Faults as of `save_by`. No contract says what is saved.
    fn save_first<R: Wait>(&self, rt: &R, wanted: u64, way: Way) -> Result<(), DeskFault>
        ensures { IfErr result (λ fault.
            (fault ≡ DeskFault.Unsaved) ⊎ (fault ≡ DeskFault.Memory)) }
    {
        let mut shelf = self.ready_shelf(rt, self.returns.others(), wanted);
        if wanted <= shelf.saved() {
            drop(shelf);
            return Ok(());
        }
        let vault = shelf.take();
        drop(shelf);
        let Some(mut vault) = vault else {
            return Err(DeskFault::Unsaved);
        };
        let saved = self.save_by(rt, &mut vault, way);
        self.note_failure(&vault);
        let turn = vault.turn();
        self.shelf.lock(rt).put(vault, &self.mark);
        self.returns.announce(turn, saved.is_ok());
        saved
    }

    // Locks the site, which is ready for a step: where the steps that no commit has taken keep more than 4 MiB beside themselves, it first
    // saves all that the site has done, so that no commit needs much more memory than that. Faults, in order: 1 `Unsaved`, where a commit
    // has failed before; 2 those of `settle_all`.
    fn lock_ready<R: Wait>(&self, rt: &R) -> Result<MutexGuard<'_, RecordedSite<L>>, DeskFault>
        ensures { IfErr result (λ fault.
            (fault ≡ DeskFault.Unsaved) ⊎ (fault ≡ DeskFault.Memory)) }
    {
        if self.has_failed() {
            return Err(DeskFault::Unsaved);
        }
        let site = self.site.lock(rt);
        if site.untaken_bytes() <= MOST_UNSAVED_BYTES {
            return Ok(site);
        }
        drop(site);
        self.settle_all(rt)?;
        Ok(self.site.lock(rt))
    }

    // The settled receipt of a step, if it is saved; else the fault is `Unsaved`.
    fn settled<R: Wait>(&self, rt: &R, done: Done<L>) -> Result<Settled<L>, DeskFault>
        ensures receipt { IfOk result (λ settled. settled ≡ done) }
        ensures fault { IfErr result (λ fault. fault ≡ DeskFault.Unsaved) }
    {
        match self.shelf.lock(rt).settled(done, &self.mark) {
            Ok(settled) => Ok(settled),
            Err(done) => {
                drop(done);
                Err(DeskFault::Unsaved)
            }
        }
    }

    // Saves the first `end` steps, and tries again each millisecond while it is out of memory. The fault is `Unsaved`: the store has
    // failed.
    fn save_anyhow<R: Wait>(&self, rt: &R, end: u64) -> Result<(), DeskFault>
        ensures { IfErr result (λ fault. fault ≡ DeskFault.Unsaved) }
    {
        for _ in rt.forever() {
            match self.save_first(rt, end, Way::Steps) {
                Ok(()) => return Ok(()),
                Err(DeskFault::Memory) => pause(rt),
                Err(_) => return Err(DeskFault::Unsaved),
            }
        }
        unreachable!()
    }

    // Does as `settle`, but tries again while it is out of memory: what was cut into a frame isn't cut again, and no peer would get it. The
    // fault is `Unsaved`: the store has failed.
    fn settle_frame<R: Wait>(&self, rt: &R, done: Done<L>) -> Result<Settled<L>, DeskFault>
        ensures receipt { IfOk result (λ settled. settled ≡ done) }
        ensures fault { IfErr result (λ fault. fault ≡ DeskFault.Unsaved) }
    {
        if self.save_anyhow(rt, done.end()).is_err() {
            drop(done);
            return Err(DeskFault::Unsaved);
        }
        self.settled(rt, done)
    }

    // Puts the vault back after a save that has gone well as `is_saved` says, and wakes those who wait for that. Returns the settled
    // receipt of a step, if it is saved. A step that isn't comes back.
    fn put_back<R: Wait>(
        &self,
        rt: &R,
        vault: Vault<S, L>,
        is_saved: bool,
        done: Done<L>,
    ) -> Result<Settled<L>, Done<L>>
        ensures receipt { IfOk result (λ settled. settled ≡ done) }
        ensures back { IfErr result (λ back. back ≡ done) }
    {
        self.note_failure(&vault);
        let turn = vault.turn();
        let mut shelf = self.shelf.lock(rt);
        shelf.put(vault, &self.mark);
        let settled = shelf.settled(done, &self.mark);
        drop(shelf);
        self.returns.announce(turn, is_saved);
        settled
    }

    // Waits until a step, which was done in this turn, is saved, or saves it with all others: where the last commit has saved several
    // steps, threads that are ready to run go first, so that the commit has their steps too. Errors, each of which drops the receipt, in
    // order: 1 `Unsaved`, where a commit has failed before; 2 `Memory`, and a later call saves the step; 3 `Unsaved`, where the commit
    // fails.
    fn settle<R: Wait>(&self, rt: &R, done: Done<L>, turn: Turn) -> Result<Settled<L>, DeskFault>
        ensures receipt { IfOk result (λ settled. settled ≡ done) }
        ensures fault { IfErr result (λ fault.
            (fault ≡ DeskFault.Unsaved) ⊎ (fault ≡ DeskFault.Memory)) }
    {
        let end = done.end();
        let mut shelf = self.ready_shelf(rt, self.returns.of_turn(turn), end);
        let done = match shelf.settled(done, &self.mark) {
            Ok(settled) => {
                drop(shelf);
                return Ok(settled);
            }
            Err(done) => done,
        };
        let vault = shelf.take();
        drop(shelf);
        let Some(mut vault) = vault else {
            drop(done);
            return Err(DeskFault::Unsaved);
        };
        if vault.is_shared() {
            thread::yield_now();
        }
        let saved = self.save_by(rt, &mut vault, Way::Steps);
        match self.put_back(rt, vault, saved.is_ok(), done) {
            Ok(settled) => Ok(settled),
            Err(done) => {
                drop(done);
                match saved {
                    Ok(()) => Err(DeskFault::Unsaved),
                    Err(fault) => Err(fault),
                }
            }
        }
    }

    /// Asks the site, and returns the receipt of the step once it is durable; so too the receipt of a refusal or a report, which may show
    /// steps that were not durable when it was made. It waits for the lock, and for the store. Where the unsaved steps keep more than 4 MiB
    /// beside themselves, it saves them before its own step.
    ///
    /// Errors, in order: 1 `Unsaved`, where a commit has failed before; 2 `Memory` or `Unsaved`, where it can't save steps before its own;
    /// 3 `Rewound`, where the journal is shorter than the pass has seen; 4 `JournalFull`, where no step may be added; 5 `Memory`;
    /// 6 `Memory` or `Unsaved`, where it can't save its own step. After the last the step was done, and the pass has counted it
    /// (`Pass::seen`); after its `Memory` a later call saves it.
    pub fn call<R: Wait>(
        &self,
        rt: &R,
        pass: &mut Pass<L>,
        asked: &Ask,
    ) -> Result<Settled<L>, DeskFault>
        ensures done { IfOk result (λ settled. HasDone pass.old settled pass.new) }
        ensures answer { IfOk result (λ settled. IsAnsweredAt L.base asked.now settled) }
        ensures legal { IfOk result (λ settled. IsLegalReceipt L.base settled) }
        ensures fails { IfErr result (λ fault. Fails L.base pass.old fault pass.new) }
        ensures only { IfErr result (λ fault. IsRewound pass.old fault
            ⊎ ((fault ≡ DeskFault.JournalFull)
            ⊎ ((fault ≡ DeskFault.Memory) ⊎ (fault ≡ DeskFault.Unsaved)))) }
    {
        let copy = asked.copy();
        let mut site = match self.lock_ready(rt) {
            Ok(site) => site,
            Err(fault) => {
                drop(copy);
                return Err(fault);
            }
        };
        let turn = site.turn();
        let done = site.call(pass, asked, copy);
        drop(site);
        self.settle(rt, done?, turn)
    }

    /// Puts the site's buffer into its next frame, if there is something in it, and returns the receipt once the step is durable. A commit
    /// of that step that runs out of memory is tried again, so that no frame is lost.
    ///
    /// Errors, in order: 1 to 4 as of a call; 5 `Exhausted`, where the buffer isn't empty and the site has made 2^40 frames; 6 `Memory`;
    /// 7 `Unsaved`, where the commit of its step fails. After the last alone the step was done, and the pass has counted it.
    pub fn cut<R: Wait>(&self, rt: &R, pass: &mut Pass<L>) -> Result<Settled<L>, DeskFault>
        ensures done { IfOk result (λ settled. HasDone pass.old settled pass.new) }
        ensures cut { IfOk result (λ settled. IsOfCut settled) }
        ensures legal { IfOk result (λ settled. IsLegalReceipt L.base settled) }
        ensures fails { IfErr result (λ fault. FailsUnsaved L.base pass.old fault pass.new) }
        ensures only { IfErr result (λ fault. IsRewound pass.old fault
            ⊎ ((fault ≡ DeskFault.JournalFull) ⊎ ((fault ≡ DeskFault.Exhausted)
            ⊎ ((fault ≡ DeskFault.Memory) ⊎ (fault ≡ DeskFault.Unsaved))))) }
    {
        let done = self.lock_ready(rt)?.cut(pass)?;
        self.settle_frame(rt, done)
    }

    /// Puts all that the site knows into its next frame, and returns the receipt once the step is durable. As of a cut, its commit is tried
    /// again while it is out of memory. Errors as of a cut, but `Exhausted` wherever the site has made 2^40 frames.
    pub fn whole<R: Wait>(&self, rt: &R, pass: &mut Pass<L>) -> Result<Settled<L>, DeskFault>
        ensures done { IfOk result (λ settled. HasDone pass.old settled pass.new) }
        ensures whole { IfOk result (λ settled. IsOfWhole settled) }
        ensures legal { IfOk result (λ settled. IsLegalReceipt L.base settled) }
        ensures fails { IfErr result (λ fault. FailsUnsaved L.base pass.old fault pass.new) }
        ensures only { IfErr result (λ fault. IsRewound pass.old fault
            ⊎ ((fault ≡ DeskFault.JournalFull) ⊎ ((fault ≡ DeskFault.Exhausted)
            ⊎ ((fault ≡ DeskFault.Memory) ⊎ (fault ≡ DeskFault.Unsaved))))) }
    {
        let done = self.lock_ready(rt)?.whole(pass)?;
        self.settle_frame(rt, done)
    }

    // Decodes the frame that bytes spell, for a take by this pass, and makes the site ready for a step. An error returns the bytes. Errors,
    // in order: 1 `Unsaved`, where a commit has failed before; 2 where the bytes can't be decoded, `Rewound`, `JournalFull` and the fault
    // of `DecodedFrame::decode`; 3 those of `lock_ready`.
    fn decode_ready<R: Wait>(
        &self,
        rt: &R,
        pass: &Pass<L>,
        bytes: SharedBytes,
    ) -> Result<DecodedFrame, (DeskFault, SharedBytes)>
        ensures value { IfOk result (λ decoded. decoded ≡ bytes) }
        ensures decode { (fault : DecodeFault) → IsRefusedFor result (DeskFault.Decode fault)
            → HasFaultAlone bytes fault }
        ensures no_take { (fault : TakeFault)
            → IsRefusedFor result (DeskFault.Take fault) → ⊥ }
        ensures memory { IsRefusedFor result DeskFault.Memory → HasOpening bytes }
        ensures only { IfErr result (λ refused. IsRewound pass.now refused.0
            ⊎ (RefusesTake refused.0 ⊎ (refused.0 ≡ DeskFault.Unsaved))) }
        ensures back { IfErr result (λ refused. refused.1 ≡ bytes) }
    {
        if self.has_failed() {
            return Err((DeskFault::Unsaved, bytes));
        }
        let alloc = bytes.allocator();
        let decoded = match DecodedFrame::decode(alloc, bytes) {
            Ok(decoded) => decoded,
            Err((fault, bytes)) => return Err((self.site.lock(rt).first_fault(pass, fault), bytes)),
        };
        match self.lock_ready(rt) {
            Ok(_) => Ok(decoded),
            Err(fault) => Err((fault, decoded.into_bytes())),
        }
    }

    /// Lets the site take the frame that bytes spell. An error returns the bytes. The step is saved with a later one, or by `settle_all`,
    /// and nobody waits for that: a receipt of a take says nothing that its caller didn't hand in. Where the unsaved steps keep more than 4
    /// MiB beside themselves, it saves them before its own step.
    ///
    /// Errors, in order: 1 `Unsaved`, where a commit has failed before; 2 where the bytes can't be decoded, `Rewound` and `JournalFull`, as
    /// of a call, and then `Decode`, with the fault of the bytes, or `BadRange` where more follows their frame; 3 `Memory` or `Unsaved`,
    /// where it can't save steps before its own; 4 `Rewound`; 5 `JournalFull`; 6 `Take`, with the fault for which the site refuses the
    /// frame. `Memory` may replace a `Take`, and a `Decode` whose fault is after a whole heading, but never one whose fault is in the
    /// heading. Only after `Unsaved` the step may have been done.
    pub fn take<R: Wait>(
        &self,
        rt: &R,
        pass: &mut Pass<L>,
        bytes: SharedBytes,
    ) -> Result<Receipt, (DeskFault, SharedBytes)>
        ensures done { IfOk result (λ receipt. HasDone pass.old receipt pass.new) }
        ensures took { IfOk result (λ receipt. IsOfTake bytes receipt) }
        ensures legal { IfOk result (λ receipt. IsLegalReceipt L.base receipt) }
        ensures decode { (fault : DecodeFault) → IsRefusedFor result (DeskFault.Decode fault)
            → HasFaultAlone bytes fault }
        ensures refused { (fault : TakeFault) → IsRefusedFor result (DeskFault.Take fault)
            → IsRefusedFrom L.base pass.old.seen bytes fault }
        ensures memory { IsRefusedFor result DeskFault.Memory → HasOpening bytes }
        ensures fails { IfErr result (λ refused. FailsUnsaved L.base pass.old refused.0 pass.new) }
        ensures only { IfErr result (λ refused. IsRewound pass.old refused.0
            ⊎ (RefusesTake refused.0 ⊎ (refused.0 ≡ DeskFault.Unsaved))) }
        ensures back { IfErr result (λ refused. refused.1 ≡ bytes) }
    {
        let decoded = match self.decode_ready(rt, pass, bytes) {
            Ok(decoded) => decoded,
            Err(refused) => return Err(refused),
        };
        let taken = self.site.lock(rt).take(pass, decoded);
        match taken {
            Ok(done) => {
                let Done { receipt, .. } = done;
                Ok(receipt)
            }
            Err(refused) => Err(refused),
        }
    }

    /// Saves all that the site has done so far, or waits until others have. Errors, in order: 1 `Unsaved`, where a step isn't saved and a
    /// commit has failed before; 2 `Memory`, and a later call saves them; 3 `Unsaved`, where the commit fails. No contract says what is
    /// saved.
    pub fn settle_all<R: Wait>(&self, rt: &R) -> Result<(), DeskFault>
        ensures { IfErr result (λ fault.
            (fault ≡ DeskFault.Unsaved) ⊎ (fault ≡ DeskFault.Memory)) }
    {
        let wanted = self.site.lock(rt).len();
        self.save_first(rt, wanted, Way::Steps)
    }

    /// Does as `settle_all`, and tries again each millisecond while it is out of memory. The error is `Unsaved`, as of `settle_all`. No
    /// contract says what is saved.
    pub fn settle_anyhow<R: Wait>(&self, rt: &R) -> Result<(), DeskFault>
        ensures { IfErr result (λ fault. fault ≡ DeskFault.Unsaved) }
    {
        let wanted = self.site.lock(rt).len();
        self.save_anyhow(rt, wanted)
    }

    /// Where no step may be added, saves all that the site has done so far, and drops the steps of the journal with that; else it returns
    /// at once. Errors, in order: 1 `Unsaved`, where the store has failed; 2 `Memory`, for the commit; 3 `Unsaved`, where the commit fails.
    /// If there is no memory for the drop a later call does it. No contract says what is saved and dropped.
    pub fn make_room<R: Wait>(&self, rt: &R) -> Result<(), DeskFault>
        ensures { IfErr result (λ fault.
            (fault ≡ DeskFault.Unsaved) ⊎ (fault ≡ DeskFault.Memory)) }
    {
        if !self.site.lock(rt).is_full() {
            return Ok(());
        }
        self.save_first(rt, u64::MAX, Way::Steps)
    }

    /// Saves all that the site has done so far, and drops the steps of the journal; positions go on. Errors, in order: 1 `Unsaved`, where
    /// the store has failed; 2 `Memory`, and no step is dropped; 3 `Unsaved`, where the commit fails: the steps are dropped from the
    /// journal all the same. No contract says what is saved and dropped.
    pub fn checkpoint<R: Wait>(&self, rt: &R) -> Result<(), DeskFault>
        ensures { IfErr result (λ fault.
            (fault ≡ DeskFault.Unsaved) ⊎ (fault ≡ DeskFault.Memory)) }
    {
        self.save_first(rt, u64::MAX, Way::Dropped)
    }

    /// Saves all that the site has done so far, and puts the site after that in the place of all steps in the store. Under its lock the site
    /// is copied, and the steps that aren't saved yet are made ready. The base is made of that copy, and both commits are done, while no
    /// lock is held; a call that has a step to save waits for both. The journal keeps its steps.
    ///
    /// Errors, in order: 1 `Unsaved` and `Memory`, as of `settle_all`, and `Memory` for the copy; 2 `Memory`, where there is none for the
    /// base: the steps are saved, the store keeps the base that it had, and later calls go on; 3 `Unsaved`, where the commit of the base
    /// fails: the store stands for the saved steps then. No contract says this.
    pub fn replace_base<R: Wait>(&self, rt: &R) -> Result<(), DeskFault>
        ensures { IfErr result (λ fault.
            (fault ≡ DeskFault.Unsaved) ⊎ (fault ≡ DeskFault.Memory)) }
    {
        self.save_first(rt, u64::MAX, Way::Base)
    }

    /// Does as `checkpoint` where the steps of the journal keep more than `bytes` bytes beside themselves, with its errors. Returns whether
    /// it did; no contract says this.
    pub fn checkpoint_above<R: Wait>(&self, rt: &R, bytes: u64) -> Result<bool, DeskFault>
        ensures { IfErr result (λ fault.
            (fault ≡ DeskFault.Unsaved) ⊎ (fault ≡ DeskFault.Memory)) }
    {
        let kept = self.site.lock(rt).payload_bytes();
        if kept <= bytes {
            return Ok(false);
        }
        self.checkpoint(rt)?;
        Ok(true)
    }

    /// Does as `replace_base` where the store had stored more rows than `most.rows` or more bytes than `most.bytes` since its base, when
    /// it last came back from a commit, with its errors. Returns whether it did; no contract says this.
    pub fn replace_base_above<R: Wait>(&self, rt: &R, most: Growth) -> Result<bool, DeskFault>
        ensures { IfErr result (λ fault.
            (fault ≡ DeskFault.Unsaved) ⊎ (fault ≡ DeskFault.Memory)) }
    {
        let stored = self.shelf.lock(rt).since_base();
        if stored.rows <= most.rows && stored.bytes <= most.bytes {
            return Ok(false);
        }
        self.replace_base(rt)?;
        Ok(true)
    }

    /// Gives up the desk. Returns a desk of its site without a store, which `close` takes, and what was saved: `None` only if a thread was
    /// cut off in a commit. It saves nothing: steps that nobody settled stand in the journal alone; call `settle_all` first. After a failed
    /// commit the journal may be ahead of the store.
    pub fn into_parts(self) -> (SiteDesk<L>, Option<SavedSteps<S, L>>)
        ensures { result.0.passes ≡ self.passes }
    {
        let StoredDesk {
            site,
            shelf,
            mark,
            passes,
            ..
        } = self;
        let desk = SiteDesk::over(site.into_inner().into_journal(), passes);
        match shelf.into_inner().into_vault() {
            Some(vault) => (desk, Some(SavedSteps { vault, mark })),
            None => {
                drop(mark);
                (desk, None)
            }
        }
    }
}
