//! The journal of a site, from the rows of its store.
ghost use Rattle.std.specs.Prelude.{◌≡◌, ◌≢◌, ◌↔◌, ◌⊎◌, ◌+◌, ◌++◌, ◌∷◌, [], List};
ghost use Rattle.std.specs.Prelude.{IfErr, IfOk, IsTrue, OnOk};
ghost use Rattle.std.specs.Prelude.{false, length};
ghost use Rattle.replica.specs.Site.{IsSameSite};
ghost use Rattle.site_journal.specs.Journals.{HasAdded, IsFull};
ghost use Rattle.site_journal.specs.declared.journaled.TheConstants.{MOST_STEPS};
ghost use Rattle.stored_steps.specs.declared.base.StoredBase.{StoredBase};
ghost use Rattle.stored_steps.specs.Bases.{IsReadBase};
ghost use Rattle.stored_steps.specs.StartRows.{is_start};
ghost use Rattle.stored_steps.specs.StepRows.{IsWithinLimits, row_of};
ghost use Rattle.stored_steps.specs.Stored.{Stored};
ghost use Rattle.store_audit.specs.Walks.{BeginsWalk, HasAddedStep, HasWalked, IsJournalOfRows};
ghost use Rattle.store_audit.specs.Walks.{IsSaidBase, SaysWalk};
ghost use Rattle.store_audit.specs.RowCauses.{IsBaseCause, IsBeginCause, IsJournalCause};
ghost use Rattle.store_audit.specs.RowCauses.{IsKeptBaseCause, IsReadCause, IsReplayCause};
ghost use Rattle.store_audit.specs.RowCauses.{IsRowCause, IsStepCause, StopsFor};

use crate::walk::Walk;
use crate::{JournalFault, StoreJournal};
use replica::Replica;
use site_journal::{Journaled, MOST_STEPS, ReplayFault, Step};
use std::alloc::Global;
use stored_steps::{
    BaseFault, RowFault, RowKind, StoredBase, StoredRow, base_heading, base_of_row, step_of_row,
};

// Whether two replicas say the same.
fn is_same(one: &Replica, other: &Replica) -> bool
    ensures { IsTrue result ↔ IsSameSite one.now other.now }
{
    let (count, time, frames) = one.last();
    let (other_count, other_time, other_frames) = other.last();
    one.site() == other.site()
        && one.list().same(other.list())
        && one.state().same(other.state())
        && one.pending().same(other.pending())
        && count == other_count
        && time == other_time
        && frames == other_frames
}

// Why the first row is no base, as the fault of a journal.
fn base_fault(fault: BaseFault) -> JournalFault
    ensures { ((fault ≡ BaseFault.Memory) × (result ≡ JournalFault.Memory))
        ⊎ ((fault ≢ BaseFault.Memory) × (result ≡ JournalFault.Base fault)) }
{
    match fault {
        BaseFault::Memory => JournalFault::Memory,
        fault => JournalFault::Base(fault),
    }
}

// The base that the first row says, of whatever site. Errors, in order: `Base`, with the fault of `base_heading`, then that of
// `base_of_row`; `Memory` in place of theirs.
fn first_base(alloc: Global, row: &StoredRow) -> Result<StoredBase, JournalFault>
    ensures read { IfOk result (λ base. IsReadBase row.now base) }
    ensures fault { IfErr result (λ fault. IsBaseCause row.now fault) }
{
    let (site, list) = match base_heading(alloc, row) {
        Ok(heading) => heading,
        Err(fault) => return Err(base_fault(fault)),
    };
    let read = base_of_row(alloc, site, &list, row);
    drop(list);
    match read {
        Ok(base) => Ok(base),
        Err(fault) => Err(base_fault(fault)),
    }
}

// The walk that begins with the first row, which has this position. Errors, in order: those of `first_base`; `NotFromStart`, if the
// position isn't 0 or the site isn't new; `Memory`.
fn begin(alloc: Global, first: u64, row: &StoredRow) -> Result<Walk, JournalFault>
    ensures begun { IfOk result (λ walk. BeginsWalk row.now walk) }
    ensures first { OnOk result (first ≡ 0) }
    ensures fault { IfErr result (λ fault. IsBeginCause first row.now fault) }
{
    let StoredBase {
        replica,
        name,
        starts,
    } = first_base(alloc, row)?;
    if first != 0 {
        drop(replica);
        return Err(JournalFault::NotFromStart);
    }
    if !replica.is_new() {
        drop(replica);
        return Err(JournalFault::NotFromStart);
    }
    let journal = Journaled::new(alloc, replica, MOST_STEPS)?;
    Ok(Walk {
        journal,
        name,
        starts,
        positions: Vec::new(alloc),
    })
}

// Whether a base says what the site of a walk is, with the name of its store and the number of its starts.
fn is_said(base: &StoredBase, walk: &Walk) -> bool
    ensures { IsTrue result ↔ SaysWalk walk.now base.now }
{
    base.name == walk.name
        && base.starts == walk.starts
        && is_same(walk.journal.replica(), &base.replica)
}

// Why a base behind the first row, which has this position, isn't read, as the fault of a journal.
fn kept_fault(position: u64, fault: BaseFault) -> JournalFault
    ensures { ((fault ≡ BaseFault.Memory) × (result ≡ JournalFault.Memory))
        ⊎ ((fault ≢ BaseFault.Memory) × (result ≡ JournalFault.Damaged position)) }
{
    match fault {
        BaseFault::Memory => JournalFault::Memory,
        _ => JournalFault::Damaged(position),
    }
}

// Checks that a base behind the first row, which has this position, says what the site is there. Errors: `Damaged`, if it can't be read or
// says something else; `Memory`.
fn check_base(
    alloc: Global,
    walk: &Walk,
    position: u64,
    row: &StoredRow,
) -> Result<(), JournalFault>
    ensures said { OnOk result (IsSaidBase walk.now row.now) }
    ensures fault { IfErr result (λ fault. IsKeptBaseCause walk.now position row.now fault) }
{
    let replica = walk.journal.replica();
    let base = match base_of_row(alloc, replica.site(), replica.list(), row) {
        Ok(base) => base,
        Err(fault) => return Err(kept_fault(position, fault)),
    };
    let is_said = is_said(&base, walk);
    drop(base);
    if is_said {
        Ok(())
    } else {
        Err(JournalFault::Damaged(position))
    }
}

// The step that the row of this position stands for. Errors: `Row`, with the fault of `step_of_row`; `Memory`.
fn step_at(alloc: Global, position: u64, row: &StoredRow) -> Result<Step, JournalFault>
    ensures row { IfOk result (λ step. row_of step ≡ Some row.now) }
    ensures within { IfOk result (λ step. IsWithinLimits step) }
    ensures fault { IfErr result (λ fault. IsReadCause position row.now fault) }
{
    match step_of_row(alloc, row) {
        Ok(step) => Ok(step),
        Err(RowFault::Memory) => Err(JournalFault::Memory),
        Err(fault) => Err(JournalFault::Row(position, fault)),
    }
}

// Does the step of the row of this position again. Errors, in order: `TooMany`, if the journal is full; `Damaged`, if the site refuses the
// step or gives another answer or other bytes; `Memory`. After an error the walk ends: the journal may have another step.
fn replay_at(journal: &mut Journaled, position: u64, step: &Step) -> Result<(), JournalFault>
    ensures added { OnOk result (HasAdded journal.old step.now journal.new) }
    ensures room { OnOk result (IsFull journal.old → ⊥) }
    ensures fault { IfErr result (λ fault. IsReplayCause journal.old position step.now fault) }
{
    match journal.replay(step) {
        Ok(()) => Ok(()),
        Err(ReplayFault::JournalFull) => Err(JournalFault::TooMany),
        Err(ReplayFault::Damaged(_)) => Err(JournalFault::Damaged(position)),
        Err(ReplayFault::Memory) => Err(JournalFault::Memory),
    }
}

// Does the step again for which the row of this position stands, which is no start, and notes the position. After an error the walk ends:
// the journal may have a step without a position. Errors, in order: those of `step_at`; those of `replay_at`; `Memory`.
fn add_step(
    alloc: Global,
    walk: &mut Walk,
    position: u64,
    row: &StoredRow,
) -> Result<(), JournalFault>
    requires { is_start row.now ≡ false }
    ensures added { OnOk result (HasAddedStep walk.old position row.now walk.new) }
    ensures fault { IfErr result
        (λ fault. IsStepCause walk.old.journal position row.now fault) }
{
    let step = step_at(alloc, position, row)?;
    let done = replay_at(&mut walk.journal, position, &step);
    drop(step);
    done?;
    match walk.positions.push(position) {
        Ok(()) => Ok(()),
        Err(_) => Err(JournalFault::Memory),
    }
}

// Does again what the row of this position says: checks a base, counts a start, or does a step. Errors are those of `check_base` or
// `add_step`; a start has none, and counts no further than 2^64 - 1.
fn walk_row(
    alloc: Global,
    walk: &mut Walk,
    position: u64,
    row: &StoredRow,
) -> Result<(), JournalFault>
    ensures walked { (base : StoredBase) (rows : List Stored) → HasWalked base rows walk.old
        → position ≡ length rows + 1
        → OnOk result (HasWalked base (rows ++ row.now ∷ []) walk.new) }
    ensures fault { (base : StoredBase) (rows : List Stored) → HasWalked base rows walk.old
        → IfErr result (λ fault.
        IsRowCause base rows walk.old.journal.replica position row.now fault) }
{
    if row.kind() == RowKind::Base.number() {
        return check_base(alloc, walk, position, row);
    }
    if row.is_start() {
        walk.starts = walk.starts.saturating_add(1);
        return Ok(());
    }
    add_step(alloc, walk, position, row)
}

// Does again what the rows behind the first say, from position 1 on. The first error of a row ends it.
fn walk_rows(alloc: Global, walk: &mut Walk, rows: &[StoredRow]) -> Result<(), JournalFault>
    ensures walked { (base : StoredBase) → HasWalked base [] walk.old
        → OnOk result (HasWalked base rows.now walk.new) }
    ensures fault { (base : StoredBase) → HasWalked base [] walk.old
        → IfErr result (λ fault. StopsFor base rows.now fault) }
{
    for (index, row) in rows.iter().enumerate() {
        walk_row(alloc, walk, index as u64 + 1, row)?;
    }
    Ok(())
}

/// The journal of a site from all rows of its store, the first of which has the position `first`. The first row is the base of a new
/// site. Each further row is a step, which is done again and must be the very same; a start; or a base that took the place of kept
/// rows, which must say what the site is there: its state, the name of the store and the number of starts. The journal has a step for
/// each row of a step, at most 1,000,000.
///
/// Errors, in order: `Base`, with the fault of `base_heading` or `base_of_row`, also where there is no row; `NotFromStart`, if `first`
/// isn't 0 or the base isn't that of a new site. Then, of the first row that has one: `Row`, with the position and the fault of
/// `step_of_row`; `TooMany`, if 1,000,000 steps were done before; `Damaged`, with the position, if the site refuses the step, gives another
/// answer or other bytes, or a base doesn't say what the site is. `Memory`, if an allocation was refused, may stand in place of each, but
/// not where there is no row.
pub fn journal_of_rows(
    alloc: Global,
    first: u64,
    rows: &[StoredRow],
) -> Result<StoreJournal, JournalFault>
    ensures journal { IfOk result (λ it. IsJournalOfRows rows.now it) }
    ensures first { OnOk result (first ≡ 0) }
    ensures fault { IfErr result (λ fault. IsJournalCause first rows.now fault) }
{
    let Some((row, rest)) = rows.split_first() else {
        return Err(JournalFault::Base(BaseFault::NoBase));
    };
    let mut walk = begin(alloc, first, row)?;
    match walk_rows(alloc, &mut walk, rest) {
        Ok(()) => Ok(StoreJournal {
            journal: walk.journal,
            name: walk.name,
            starts: walk.starts,
            positions: walk.positions,
        }),
        Err(fault) => {
            drop(walk);
            Err(fault)
        }
    }
}
