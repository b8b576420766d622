//! Joins the parts of deltas. If one of them is empty, nothing is walked, whatever the other has.
ghost use Rattle.std.specs.Prelude.{◌≡◌, ◌≢◌, ◌↔◌, ◌≤◌, Err, IsOk, IsTrue, OnOk};
ghost use Rattle.std.specs.FinSet as set;
ghost use Rattle.operations.specs.Totals.{join_of};
ghost use Rattle.member_orset.specs.Members.{IsJoinOf, IsPrepared, IsUnchanged, IsWithinLimits};
ghost use Rattle.member_orset.specs.Members.{KeepsIds};
ghost use Rattle.member_orset.specs.Refusals.{IsRefusedJoin};
ghost use Rattle.site_totals.specs.Tally.{HasRoomFor};

use crate::{JoinFault, Memory};
use causal_context::Context;
use member_orset::MemberSet;
use site_totals::Totals;

// Whether no dot is known. Reads no run.
fn has_no_runs(context: &Context) -> bool
    ensures { IsTrue result ↔ (context.now.dots ≡ set.empty) }
{
    context.as_slice().is_empty()
}

// Whether a set knows no dot.
pub(crate) fn knows_nothing(members: &MemberSet) -> bool
    ensures { IsTrue result ↔ (members.now.known ≡ set.empty) }
{
    has_no_runs(members.context())
}

// Makes room for another set, if it isn't empty. What this one says stays. The errors are those of
// `MemberSet::prepare`.
pub(crate) fn prepare_members(members: &mut MemberSet, other: &MemberSet) -> Result<(), JoinFault>
    requires limits { IsWithinLimits members.old }
    requires others { IsWithinLimits other.now }
    ensures ready { OnOk result (other.now.known ≢ set.empty → IsPrepared members.new other.now) }
    ensures refusals { IsRefusedJoin members.old other.now (λ fault. result ≡ Err fault) }
    ensures again { (other.now.known ≢ set.empty → IsPrepared members.old other.now) → IsOk result }
    ensures kept { IsUnchanged members.old members.new }
    ensures cell_room { members.old.cell_room ≤ members.new.cell_room }
    ensures run_room { members.old.run_room ≤ members.new.run_room }
{
    if knows_nothing(other) {
        return Ok(());
    }
    members.prepare(other)
}

// Whether another set can be absorbed, or is empty.
pub(crate) fn has_prepared_members(members: &MemberSet, other: &MemberSet) -> bool
    ensures { IsTrue result ↔ (other.now.known ≢ set.empty → IsPrepared members.now other.now) }
{
    knows_nothing(other) || members.prepared(other)
}

// Joins another set that was prepared, or is empty.
pub(crate) fn absorb_members(members: &mut MemberSet, other: MemberSet)
    requires prepared { other.known ≢ set.empty → IsPrepared members.old other }
    requires limits { IsWithinLimits members.old }
    requires others { IsWithinLimits other }
    ensures joined { IsJoinOf members.old other members.new }
    ensures ids { KeepsIds members.old members.new }
    ensures limits { IsWithinLimits members.new }
{
    if knows_nothing(&other) {
        drop(other);
        return;
    }
    members.absorb(other);
    let _ = members.cells(); // so that its limits are known
}

// Makes room for other totals, if there are any. The totals stay. Fails only when out of memory,
// never if there is room.
pub(crate) fn prepare_totals(totals: &mut Totals, other: &Totals) -> Result<(), Memory>
    ensures ok { OnOk result (HasRoomFor totals.new other.now.entries) }
    ensures unchanged { totals.new.entries ≡ totals.old.entries }
    ensures room { totals.old.room ≤ totals.new.room }
    ensures again { HasRoomFor totals.old other.now.entries → IsOk result }
{
    if other.is_empty() {
        return Ok(());
    }
    totals.prepare(other)
}

// Whether there is room for other totals.
pub(crate) fn has_prepared_totals(totals: &Totals, other: &Totals) -> bool
    ensures { IsTrue result ↔ HasRoomFor totals.now other.now.entries }
{
    other.is_empty() || totals.prepared(other)
}

// Joins other totals, for which there is room.
pub(crate) fn absorb_totals(totals: &mut Totals, other: &Totals)
    requires { HasRoomFor totals.old other.now.entries }
    ensures { totals.new.entries ≡ join_of totals.old.entries other.now.entries }
{
    if !other.is_empty() {
        totals.absorb(other);
    }
}
