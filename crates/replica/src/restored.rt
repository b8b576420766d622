//! A replica from its parts, as a store keeps them.
ghost use Rattle.std.specs.Prelude.{◌≡◌, ◌≢◌, ◌≤◌, ◌<◌, ◌↔◌, Err, IfErr, IfOk, IsTrue, OnOk};
ghost use Rattle.operations.specs.Totals.{InLimits};
ghost use Rattle.member_orset.specs.Members.{IsWithinLimits};
ghost use Rattle.delta.specs.DeltaStates.{IsSame};
ghost use Rattle.delta.specs.Joining.{DeltasAgree, IsJoinOf};
ghost use Rattle.replica.specs.Keeping.{AreInQueues, HasOwnDots, HasOwnStamps, IsBelow};
ghost use Rattle.replica.specs.Queues.{AreQueues};
ghost use Rattle.replica.specs.Restoring.{IsJoinCause, IsPartCause, IsRestoreCause};
ghost use Rattle.replica.specs.Restoring.{IsRestored, IsSound, parts_of};
ghost use Rattle.replica.specs.Restoring.{restore_fault_of};
ghost use Rattle.replica.specs.declared.restore_fault.RestoreFault.{RestoreFault};
ghost use Rattle.replica.specs.Site.{IsSameSite};

use crate::foreign::{has_dot_past, has_stamp_past, has_strange_member, has_strange_total};
use crate::{QueueList, Replica, RestoreFault};
use delta::{Delta, JoinFault};
use dots::{MOST_COUNT, SiteId};
use std::alloc::Global;

// Whether a site's own dots in a delta are exactly those of the counts 1 to `last`. Takes no memory, like the other tests here.
fn has_own_dots(delta: &Delta, site: SiteId, last: u64) -> bool
    ensures test { IsTrue result ↔ HasOwnDots site last delta.now }
    ensures limits { IsWithinLimits delta.now.members }
{
    let context = delta.members().context();
    context.prefix(site) == last && !has_dot_past(context, site, last)
}

// Whether a site wrote no field of a live dot of a delta later than this time.
fn has_own_stamps(delta: &Delta, site: SiteId, last: u64) -> bool
    ensures { IsTrue result ↔ HasOwnStamps site last delta.now }
{
    !has_stamp_past(delta.members(), site, last)
}

// Whether all live dots and totals of a delta are of queues whose numbers are below this one.
fn is_in_queues(delta: &Delta, queues: u16) -> bool
    ensures test { IsTrue result ↔ AreInQueues queues delta.now }
    ensures limits { IsTrue result → InLimits delta.now.totals.entries }
{
    !has_strange_total(delta.totals(), queues) && !has_strange_member(delta.members(), queues)
}

// Whether the last numbers are at most 2^40.
fn are_small(last: (u64, u64, u64)) -> bool
    ensures { IsTrue result
        ↔ ((last.0 ≤ MOST_COUNT) × ((last.1 ≤ MOST_COUNT) × (last.2 ≤ MOST_COUNT))) }
{
    last.0 <= MOST_COUNT && last.1 <= MOST_COUNT && last.2 <= MOST_COUNT
}

// Checks that parts keep the invariant of every replica. Errors, in order, each for the cause that `restored` names:
// 1 `NumberTooLarge`; 2 `OwnDots`; 3 `OwnStamps`; 4 `NoSuchQueue`.
fn check_parts(
    site: SiteId,
    list: &QueueList,
    state: &Delta,
    pending: &Delta,
    last: (u64, u64, u64),
) -> Result<(), RestoreFault>
    ensures sound { OnOk result (IsSound (parts_of site list.now state.now pending.now last)) }
    ensures state { OnOk result (InLimits state.now.totals.entries) }
    ensures pending { OnOk result (InLimits pending.now.totals.entries) }
    ensures queues { OnOk result (AreQueues list.now) }
    ensures limits { OnOk result (IsWithinLimits state.now.members) }
    ensures cause { IfErr result
        (λ fault. IsPartCause (parts_of site list.now state.now pending.now last) fault) }
{
    let (count, time, _) = last;
    if !are_small(last) {
        return Err(RestoreFault::NumberTooLarge);
    }
    if !has_own_dots(state, site, count) || has_dot_past(pending.members().context(), site, count) {
        return Err(RestoreFault::OwnDots);
    }
    if !has_own_stamps(state, site, time) || !has_own_stamps(pending, site, time) {
        return Err(RestoreFault::OwnStamps);
    }
    if !is_in_queues(state, list.len()) || !is_in_queues(pending, list.len()) {
        return Err(RestoreFault::NoSuchQueue);
    }
    Ok(())
}

// The fault of a restore for deltas that can't be joined.
fn restore_fault(fault: JoinFault) -> RestoreFault
    ensures { result ≡ restore_fault_of fault }
{
    match fault {
        JoinFault::Conflict => RestoreFault::Conflict,
        JoinFault::CellsFull => RestoreFault::CellsFull,
        JoinFault::RunsFull => RestoreFault::RunsFull,
        JoinFault::Memory => RestoreFault::Memory,
    }
}

// Joins a buffer into a state, and returns a copy of the buffer. Errors, in order: 1 `Conflict`, 2 `CellsFull` and 3 `RunsFull`, as
// `Delta::prepare` has them; 4 `Memory`. An error drops the buffer and leaves what the state says; no contract says this.
fn join_buffer(state: &mut Delta, pending: Delta) -> Result<Delta, RestoreFault>
    ensures joined { OnOk result (IsJoinOf state.old pending state.new) }
    ensures agree { OnOk result (DeltasAgree state.old pending) }
    ensures copy { IfOk result (λ copy. IsSame pending copy) }
    ensures limits { OnOk result (IsWithinLimits state.new.members) }
    ensures copy_limits { IfOk result (λ copy. IsWithinLimits copy.members) }
    ensures cause { IfErr result (λ fault. IsJoinCause state.old pending fault) }
    ensures found { (fault : RestoreFault) → fault ≢ RestoreFault.Memory
        → IsJoinCause state.old pending fault → result ≡ Err fault }
{
    if let Err(fault) = state.prepare(&pending) {
        pending.discard();
        return Err(restore_fault(fault));
    }
    let Ok(copy) = pending.copy() else {
        pending.discard();
        return Err(RestoreFault::Memory);
    };
    state.absorb(pending);
    Ok(copy)
}

impl Replica {
    /// The replica of these parts, which a store has kept: its state, its buffer, and the count, time and frame number that it used
    /// last. The buffer is joined into the state, which changes nothing if it is below the state, as that of every replica is.
    ///
    /// Errors, in order, each exactly for its cause: 1 `NumberTooLarge`: the last count, time or frame number is above 2^40; 2
    /// `OwnDots`: the site's own dots in the state aren't those of the counts from 1 to its last, or the buffer has an own dot past
    /// that; 3 `OwnStamps`: a live dot of either has a field that the site wrote later than its last time; 4 `NoSuchQueue`: a live
    /// dot or a total of either is of a queue that isn't in the list; 5 `Conflict`, 6 `CellsFull` and 7 `RunsFull`: the buffer
    /// can't be joined into the state, as `Delta::prepare` has them; 8 `Memory`. An error drops all parts.
    pub fn restored(
        alloc: Global,
        site: SiteId,
        list: QueueList,
        mut state: Delta,
        pending: Delta,
        last: (u64, u64, u64),
    ) -> Result<Replica, RestoreFault>
        ensures restored { IfOk result
            (λ replica. IsRestored (parts_of site list state pending last) replica) }
        ensures same { IsBelow pending state → IfOk result
            (λ replica. IsSameSite (parts_of site list state pending last) replica) }
        ensures refusals { (fault : RestoreFault) → fault ≢ RestoreFault.Memory
            → (result ≡ Err fault)
            ↔ IsRestoreCause (parts_of site list state pending last) fault }
    {
        if let Err(fault) = check_parts(site, &list, &state, &pending, last) {
            state.discard();
            pending.discard();
            return Err(fault);
        }
        let pending = match join_buffer(&mut state, pending) {
            Ok(pending) => pending,
            Err(fault) => {
                state.discard();
                return Err(fault);
            }
        };
        let (count, time, frames) = last;
        Ok(Replica {
            site,
            list,
            state,
            pending,
            count,
            time,
            frames,
            alloc,
        })
    }
}
