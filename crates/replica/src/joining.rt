//! Joins changes into the state and the buffer, or into neither.
ghost use Rattle.std.specs.Prelude.{◌≡◌, ◌⊎◌, OnOk, OnErr, IsErrOf};
ghost use Rattle.member_orset.specs.Members.{IsWithinLimits};
ghost use Rattle.delta.specs.DeltaStates.{IsUnchanged};
ghost use Rattle.delta.specs.Joining.{DeltasAgree, IsPrepared};
ghost use Rattle.replica.specs.Fitting.{BothTakeIn, HasRoomFor, IsTooFullFor};

use crate::Refusal;
use delta::{Delta, JoinFault};

// The refusal of a change that can't be joined: `Memory` when out of memory, else `MembersFull`. No change is in conflict.
fn refusal_of(fault: JoinFault) -> Refusal
    ensures full { fault ≡ JoinFault.CellsFull → result ≡ Refusal.MembersFull }
    ensures runs { fault ≡ JoinFault.RunsFull → result ≡ Refusal.MembersFull }
    ensures memory { fault ≡ JoinFault.Memory → result ≡ Refusal.Memory }
    ensures only { (result ≡ Refusal.MembersFull) ⊎ (result ≡ Refusal.Memory) }
{
    match fault {
        JoinFault::Memory => Refusal::Memory,
        _ => Refusal::MembersFull,
    }
}

// Makes room for a change in a delta that agrees with it. What the delta says stays. Errors: `MembersFull`, if both
// together have too many live dots or runs; `Memory`.
fn make_room(delta: &mut Delta, change: &Delta) -> Result<(), Refusal>
    requires { DeltasAgree delta.old change.now }
    ensures ready { OnOk result (IsPrepared delta.new change.now) }
    ensures room { OnOk result (HasRoomFor delta.old change.now) }
    ensures full { IsErrOf result Refusal.MembersFull → IsTooFullFor delta.old change.now }
    ensures only { OnErr result
        (IsErrOf result Refusal.MembersFull ⊎ IsErrOf result Refusal.Memory) }
    ensures kept { IsUnchanged delta.old delta.new }
{
    match delta.prepare(change) {
        Ok(()) => Ok(()),
        Err(fault) => Err(refusal_of(fault)),
    }
}

// Joins a change that agrees with both into the state and the buffer. The change is copied once. Errors: `MembersFull`, if
// the state or the buffer would have too many live dots or runs; `Memory`, which may replace it. A refusal drops the
// change and leaves what both say.
pub(crate) fn join_both(
    state: &mut Delta,
    pending: &mut Delta,
    change: Delta,
) -> Result<(), Refusal>
    requires state { DeltasAgree state.old change }
    requires pending { DeltasAgree pending.old change }
    ensures both { BothTakeIn state.old pending.old change state.new pending.new result }
    ensures limits { OnOk result
        (IsWithinLimits state.new.members × IsWithinLimits pending.new.members) }
{
    let Ok(copy) = change.copy() else {
        change.discard();
        return Err(Refusal::Memory);
    };
    if let Err(refusal) = make_room(state, &change) {
        copy.discard();
        change.discard();
        return Err(refusal);
    }
    if let Err(refusal) = make_room(pending, &copy) {
        copy.discard();
        change.discard();
        return Err(refusal);
    }
    state.absorb(change);
    pending.absorb(copy);
    Ok(())
}
