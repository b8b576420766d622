//! Builds a site again of the rows of its store.
ghost use Rattle.std.specs.Prelude.{◌≡◌, ◌<◌, ◌≤◌, ◌^◌, ◌+◌, ◌++◌, ◌∷◌, [], List};
ghost use Rattle.std.specs.Prelude.{IfErr, IfOk, OnOk, count_by, length};
ghost use Rattle.dots.specs.declared.limits.TheConstants.{MOST_COUNT};
ghost use Rattle.replica.specs.Site.{SiteState};
ghost use Rattle.site_journal.specs.declared.journaled.TheConstants.{MOST_STEPS};
ghost use Rattle.site_journal.specs.Journals.{IsFull, IsNewJournal};
ghost use Rattle.site_journal.specs.Replaying.{CanCome};
ghost use Rattle.stored_steps.specs.Bases.{IsReadBase};
ghost use Rattle.stored_steps.specs.Restoring.{HasReplayed, HasReplayedStep, HasRoom, IsRestoredSite};
ghost use Rattle.stored_steps.specs.RowsLead.{MakeSite, RowLeads, RowsLead};
ghost use Rattle.stored_steps.specs.StartRows.{is_start};
ghost use Rattle.stored_steps.specs.StoreFaults.{IsOutOfRoom, base_fault, replay_fault};
ghost use Rattle.stored_steps.specs.StoreFaults.{row_fault};
ghost use Rattle.stored_steps.specs.Stored.{Stored};

use crate::base_reading::base_of_row;
use crate::restored_site::RestoredSite;
use crate::step_rows::step_of_row;
use crate::{BaseFault, RowFault, StoreFault, StoredBase, StoredRow};
use dots::SiteId;
use replica::{QueueList, Replica};
use site_journal::{Journaled, MOST_STEPS, ReplayFault, Step};
use std::alloc::Global;

// The fault of a store whose first row is no base: `Memory` stays, and every other fault is a `Base`.
fn base_fault(fault: BaseFault) -> StoreFault
    ensures { result ≡ base_fault fault }
{
    match fault {
        BaseFault::Memory => StoreFault::Memory,
        fault => StoreFault::Base(fault),
    }
}

// The fault of a store whose row of this position is of no step: `Memory` stays, and every other fault is a `Row`.
fn row_fault(position: u64, fault: RowFault) -> StoreFault
    ensures { result ≡ row_fault position fault }
{
    match fault {
        RowFault::Memory => StoreFault::Memory,
        fault => StoreFault::Row(position, fault),
    }
}

// The fault of a store where the step of the row of this position was not done again: `Damaged` with this position, `JournalFull` or
// `Memory`.
fn replay_fault(position: u64, fault: ReplayFault) -> StoreFault
    ensures { result ≡ replay_fault position fault }
{
    match fault {
        ReplayFault::JournalFull => StoreFault::JournalFull,
        ReplayFault::Damaged(_) => StoreFault::Damaged(position),
        ReplayFault::Memory => StoreFault::Memory,
    }
}

// Makes room for one step more in a journal: drops the steps of one that is full. One with 2^40 steps in all stays full. Fails only with
// `Memory`, and then drops none.
fn make_room(journal: &mut Journaled) -> Result<(), StoreFault>
    ensures room { OnOk result (HasRoom journal.old journal.new) }
    ensures full { OnOk result (IsFull journal.new → journal.new.count ≡ MOST_COUNT) }
    ensures memory { IfErr result (λ fault. fault ≡ StoreFault.Memory) }
{
    if !journal.is_full() {
        return Ok(());
    }
    match journal.checkpoint() {
        Ok(dropped) => {
            drop(dropped);
            Ok(())
        }
        Err(_) => Err(StoreFault::Memory),
    }
}

// Does the step of the row of this position again. Errors, in order: `JournalFull`, if 2^40 steps were done before; `Damaged`, if the site
// refuses the step, or gives another answer or other bytes; `Memory`, which may replace both. After an error the journal may have dropped
// its steps, and after `Damaged` it may have a different step more.
fn replay_step(journal: &mut Journaled, position: u64, step: &Step) -> Result<(), StoreFault>
    ensures done { OnOk result (HasReplayedStep journal.old step.now journal.new) }
    ensures refused { CanCome journal.old step.now
        → IfErr result (λ fault. IsOutOfRoom journal.old.count fault) }
{
    make_room(journal)?;
    match journal.replay(step) {
        Ok(()) => Ok(()),
        Err(fault) => Err(replay_fault(position, fault)),
    }
}

// Does again what the row of this position says; the row of a start says nothing. Errors, in order: `Row`, with the fault of `step_of_row`;
// those of `replay_step`; `Memory`, which never replaces `Row`.
#[tactic(auto, using(crate::proofs::RestoringLaws::start_replayed, crate::proofs::RestoringLaws::step_replayed, crate::proofs::RestoringLaws::step_limit))]
fn replay_row(
    alloc: Global,
    journal: &mut Journaled,
    position: u64,
    row: &StoredRow,
) -> Result<(), StoreFault>
    ensures replayed { (from : SiteState) (rows : List Stored) → HasReplayed from rows journal.old
        → OnOk result (HasReplayed from (rows ++ row.now ∷ []) journal.new) }
    ensures refused { (to : SiteState) → RowLeads journal.old.replica row.now to
        → IfErr result (λ fault. IsOutOfRoom journal.old.count fault) }
    ensures limit { OnOk result (journal.new.limit ≡ journal.old.limit) }
{
    if row.is_start() {
        return Ok(());
    }
    let step = match step_of_row(alloc, row) {
        Ok(step) => step,
        Err(fault) => return Err(row_fault(position, fault)),
    };
    let done = replay_step(journal, position, &step);
    drop(step);
    done
}

// Does again what rows say, the first of which has the position `first`. The error is that of the first row that has one; then the journal
// has done the steps before it, and after `Damaged` maybe one more.
fn replay_rows(
    alloc: Global,
    journal: &mut Journaled,
    first: u64,
    rows: &[StoredRow],
) -> Result<(), StoreFault>
    requires { first + length rows.now < 2 ^ 64 }
    ensures replayed { (from : SiteState) → HasReplayed from [] journal.old
        → OnOk result (HasReplayed from rows.now journal.new) }
    ensures refused { (from to : SiteState) → HasReplayed from [] journal.old
        → RowsLead from rows.now to
        → IfErr result (λ fault. IsOutOfRoom (length rows.now) fault) }
    ensures limit { OnOk result (journal.new.limit ≡ journal.old.limit) }
{
    let mut position = first;
    for row in rows {
        replay_row(alloc, journal, position, row)?;
        position += 1;
    }
    Ok(())
}

// How many rows are of starts.
fn starts_in(rows: &[StoredRow]) -> u64
    ensures { result ≡ count_by is_start rows.now }
{
    rows.iter().filter(|row| row.is_start()).count() as u64
}

// A journal of a replica, without a step. The fault is `Memory`, and the replica is then dropped.
fn begin(alloc: Global, replica: Replica, limit: u32) -> Result<Journaled, StoreFault>
    requires some { 1 ≤ limit }
    requires most { limit ≤ MOST_STEPS }
    ensures new { IfOk result (λ journal. IsNewJournal replica limit journal) }
    ensures memory { IfErr result (λ fault. fault ≡ StoreFault.Memory) }
{
    match Journaled::new(alloc, replica, limit) {
        Ok(journal) => Ok(journal),
        Err(_) => Err(StoreFault::Memory),
    }
}

// The site of a base and of further rows, the first of which has the position `first`. Errors: `Memory`; those of `replay_rows`. Each drops
// the site.
fn restore_from(
    alloc: Global,
    base: StoredBase,
    limit: u32,
    first: u64,
    rows: &[StoredRow],
) -> Result<RestoredSite, StoreFault>
    requires some { 1 ≤ limit }
    requires most { limit ≤ MOST_STEPS }
    requires fits { first + length rows.now < 2 ^ 64 }
    ensures restored { (row : Stored) → IsReadBase row base
        → IfOk result (λ it. IsRestoredSite (row ∷ rows.now) it) }
    ensures refused { (to : SiteState) → RowsLead base.replica rows.now to
        → IfErr result (λ fault. IsOutOfRoom (length rows.now) fault) }
    ensures site { IfOk result (λ it. it.journal.replica.site ≡ base.replica.site) }
    ensures names { IfOk result (λ it. it.journal.replica.names ≡ base.replica.names) }
    ensures limit { IfOk result (λ it. it.journal.limit ≡ limit) }
{
    let StoredBase {
        replica,
        name,
        starts,
    } = base;
    let mut journal = begin(alloc, replica, limit)?;
    match replay_rows(alloc, &mut journal, first, rows) {
        Ok(()) => Ok(RestoredSite {
            journal,
            name,
            starts: starts.saturating_add(starts_in(rows)),
        }),
        Err(fault) => {
            drop(journal);
            Err(fault)
        }
    }
}

/// Builds a site again of the rows of its store, the first of which has the position `first`. The first row is the base; the step of each
/// further row is done again, and must be the very same; the row of a start only counts one. The journal may have `limit` steps, 1 to
/// 1,000,000. A journal that is full drops its steps before the next one, so it has the steps of the last rows: all of them, if they are at
/// most `limit`.
///
/// Errors, of the first row that has one: `Base`, with the fault of `base_of_row`, also where there is no row; `Row`, with the position and
/// the fault of `step_of_row`; `JournalFull`, if 2^40 steps were done before; `Damaged`, with the position, if the site refuses the step,
/// or gives another answer or other bytes; `Memory`, which may replace `JournalFull`, `Damaged`, and a `Base` as of `base_of_row`.
pub fn restore(
    alloc: Global,
    site: SiteId,
    list: &QueueList,
    limit: u32,
    first: u64,
    rows: &[StoredRow],
) -> Result<RestoredSite, StoreFault>
    requires some { 1 ≤ limit }
    requires most { limit ≤ MOST_STEPS }
    requires fits { first + length rows.now < 2 ^ 64 }
    ensures restored { IfOk result (λ it. IsRestoredSite rows.now it) }
    // Rows that make a site of this number with these queues are refused only with `Memory`, or if they are 2^40 or more.
    ensures makes { MakeSite site list.now rows.now
        → IfErr result (λ fault. IsOutOfRoom (length rows.now) fault) }
    ensures site { IfOk result (λ it. it.journal.replica.site ≡ site) }
    ensures names { IfOk result (λ it. it.journal.replica.names ≡ list.now) }
    ensures limit { IfOk result (λ it. it.journal.limit ≡ limit) }
{
    let Some((row, rest)) = rows.split_first() else {
        return Err(StoreFault::Base(BaseFault::NoBase));
    };
    let base = match base_of_row(alloc, site, list, row) {
        Ok(base) => base,
        Err(fault) => return Err(base_fault(fault)),
    };
    restore_from(alloc, base, limit, first + 1, rest)
}
