ghost use Rattle.std.specs.Prelude.{◌≡◌, ◌↔◌, Err, IfErr, IfOk, IsFalse, IsOk, IsTrue, OnErr, OnOk};
ghost use Rattle.std.specs.FinSet as set;
ghost use Rattle.member_orset.specs.Members.{IsWithinLimits, KeepsIds};
ghost use Rattle.delta.specs.DeltaStates.{IsEmpty, IsSame, IsUnchanged, KeepsRoom};
ghost use Rattle.delta.specs.Joining.{DeltasAgree, DeltasInConflict, IsJoinOf, IsPrepared, IsRefusedFor};
ghost use Rattle.delta.specs.Joining.{IsRefusedJoin};

use crate::parts::{
    absorb_members, absorb_totals, has_prepared_members, has_prepared_totals, knows_nothing,
    prepare_members, prepare_totals,
};
use crate::{JoinFault, Memory};
use member_orset::MemberSet;
use site_totals::Totals;
use std::alloc::Global;
use std::marker::Model;

/// A delta: a set of members, and totals. A site keeps its state as a delta, and sends deltas to others; a delta stands for the
/// operations that made it. Join is commutative, associative and idempotent (RR-7506: states form a join semilattice). The limits
/// are those of its parts.
#[derive(Drop)]
pub struct Delta {
    members: MemberSet,
    totals: Totals,
}

impl Model for Delta {
    ghost use Rattle.delta.specs.DeltaStates.{DeltaState, delta_code};

    ghost Value = { DeltaState };

    ghost coded = { delta_code };

    ghost use Rattle.member_orset.specs.Members.{IsWithinLimits};

    ghost view = { λ d. record { members = d.members; totals = d.totals } };

    ghost invariant = { λ d. IsWithinLimits d.members };
}

impl Delta {
    /// The empty delta. Takes no memory.
    pub fn empty(alloc: Global) -> Delta
        ensures empty { IsEmpty result }
        ensures spent { result.members.spent ≡ set.empty }
        ensures retired { result.members.retired ≡ 0 }
        ensures limits { IsWithinLimits result.members }
    {
        Delta::of(MemberSet::new(alloc), Totals::new(alloc))
    }

    /// The delta of a set of members and totals. Takes no memory.
    pub fn of(members: MemberSet, totals: Totals) -> Delta
        ensures members { result.members ≡ members }
        ensures totals { result.totals ≡ totals }
        ensures limits { IsWithinLimits result.members }
    {
        let _ = members.cells(); // so that its limits are known
        Delta { members, totals }
    }

    /// Its parts. Takes no memory.
    pub fn into_parts(self) -> (MemberSet, Totals)
        ensures members { result.0 ≡ self.members }
        ensures totals { result.1 ≡ self.totals }
    {
        (self.members, self.totals)
    }

    /// Drops it, which frees its memory.
    pub fn discard(self) {}

    /// Its set of members. Takes no memory, like every function that only reads and can't fail.
    pub fn members(&self) -> &MemberSet
        ensures value { result.now ≡ self.now.members }
        ensures limits { IsWithinLimits result.now }
    {
        &self.members
    }

    /// Its totals.
    pub fn totals(&self) -> &Totals
        ensures { result.now ≡ self.now.totals }
    {
        &self.totals
    }

    /// Whether it is empty: no known dot, and no total.
    pub fn is_empty(&self) -> bool
        ensures { IsTrue result ↔ IsEmpty self.now }
    {
        knows_nothing(&self.members) && self.totals.is_empty()
    }

    /// Whether both say the same of each dot and have the same totals.
    pub fn same(&self, other: &Delta) -> bool
        ensures { IsTrue result ↔ IsSame self.now other.now }
    {
        self.members.same(&other.members) && self.totals.same(&other.totals)
    }

    /// Whether both can be joined: no dot is live in both with two members, or with a field of one stamp and two values.
    pub fn agrees(&self, other: &Delta) -> bool
        ensures agree { IsTrue result ↔ DeltasAgree self.now other.now }
        ensures conflict { IsFalse result ↔ DeltasInConflict self.now other.now }
    {
        self.members.agrees(&other.members)
    }

    /// Makes room for another delta, which `absorb` then joins. The delta says the same as before. Errors, in order: 1
    /// `Conflict`, exactly where `agrees` is false; 2 `CellsFull`, exactly where the join has more than 16,384 live dots; 3
    /// `RunsFull`, exactly where the known dots of both make more than 65,536 runs; 4 `Memory`, never if `prepared` is true. An
    /// empty part of the other costs nothing.
    pub fn prepare(&mut self, other: &Delta) -> Result<(), JoinFault>
        ensures ready { OnOk result (IsPrepared self.new other.now) }
        ensures refusals { IsRefusedJoin self.old other.now (λ fault. result ≡ Err fault) }
        ensures again { IsPrepared self.old other.now → IsOk result }
        ensures kept { IsUnchanged self.old self.new }
        ensures room { KeepsRoom self.old self.new }
        ensures limits { IsWithinLimits self.new.members × IsWithinLimits other.now.members }
    {
        prepare_members(&mut self.members, &other.members)?;
        match prepare_totals(&mut self.totals, &other.totals) {
            Ok(()) => Ok(()),
            Err(_) => Err(JoinFault::Memory),
        }
    }

    /// Whether another delta can be absorbed: the two agree, the join is small enough, and there is room for both parts.
    pub fn prepared(&self, other: &Delta) -> bool
        ensures { IsTrue result ↔ IsPrepared self.now other.now }
    {
        has_prepared_members(&self.members, &other.members)
            && has_prepared_totals(&self.totals, &other.totals)
    }

    /// Joins another delta that was prepared: each dot has the join of its two conditions, and each total is the greater of both.
    /// Takes no memory and can't fail. An empty part of the other costs nothing.
    pub fn absorb(&mut self, other: Delta)
        requires { IsPrepared self.old other }
        ensures joined { IsJoinOf self.old other self.new }
        ensures ids { KeepsIds self.old.members self.new.members }
        ensures limits { IsWithinLimits self.new.members }
    {
        let Delta { members, totals } = other;
        absorb_members(&mut self.members, members);
        absorb_totals(&mut self.totals, &totals);
    }

    /// Joins another delta: each dot has the join of its two conditions, and each total is the greater of both. A fault returns
    /// the other delta unchanged, and leaves what this one says. Errors as of `prepare`, in its order. An empty part of the other
    /// costs nothing.
    pub fn join(&mut self, other: Delta) -> Result<(), (JoinFault, Delta)>
        ensures joined { OnOk result (IsJoinOf self.old other self.new) }
        ensures refusals { IsRefusedJoin self.old other (λ fault. IsRefusedFor result fault) }
        ensures prepared { IsPrepared self.old other → IsOk result }
        ensures back { IfErr result (λ refused. refused.1 ≡ other) }
        ensures err { OnErr result (IsUnchanged self.old self.new) }
        ensures ids { KeepsIds self.old.members self.new.members }
    {
        if let Err(fault) = self.prepare(&other) {
            return Err((fault, other));
        }
        self.absorb(other);
        Ok(())
    }

    /// A copy that says the same. Fails only when out of memory.
    pub fn copy(&self) -> Result<Delta, Memory>
        ensures same { IfOk result (λ copy. IsSame self.now copy) }
        ensures spent { IfOk result (λ copy. copy.members.spent ≡ set.empty) }
        ensures retired { IfOk result (λ copy. copy.members.retired ≡ 0) }
        ensures limits { IfOk result (λ copy. IsWithinLimits copy.members) }
    {
        let totals = self.totals.copy()?;
        let members = self.members.copy()?;
        Ok(Delta::of(members, totals))
    }
}
