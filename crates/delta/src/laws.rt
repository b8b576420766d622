//! Laws of the join of deltas, and of the knowledges that they stand for. The functions have no body: their contracts are the laws.
ghost use Rattle.std.specs.Prelude.{◌≡◌, ◌↔◌, [], ◌++◌};
ghost use Rattle.std.specs.FinMap as map;
ghost use Rattle.std.specs.FinSet as set;
ghost use Rattle.dots.specs.DotSets.{run_count};
ghost use Rattle.operations.specs.Knowledge.{Knowledge, IsConsistent, SameOperations, known_dots};
ghost use Rattle.operations.specs.Knowledge.{visible_dots};
ghost use Rattle.operations.specs.Traces.{LeaveTraces};
ghost use Rattle.member_orset.specs.Members.{cells_joined, runs_joined};
ghost use Rattle.delta.specs.DeltaStates.{DeltaState, IsEmpty, IsSame};
ghost use Rattle.delta.specs.Joining.{DeltasAgree, DeltasInConflict, IsJoinOf};
ghost use Rattle.delta.specs.Standing.{IsDeltaOf, IsReadAs};

/// Join is commutative, associative and idempotent on deltas that agree (RR-7506: states form a join semilattice). A delta that
/// agrees with two that agree, agrees with their join. To join an empty delta, or to join into one, changes nothing.
pub fn deltas_are_joined_in_any_order()
    ensures commutative { (x y joint turned : DeltaState) → DeltasAgree x y
        → IsJoinOf x y joint → IsJoinOf y x turned → IsSame joint turned }
    ensures turned { (x y joint : DeltaState) → DeltasAgree x y
        → IsJoinOf x y joint → IsJoinOf y x joint }
    ensures associative { (x y z xy yz left right : DeltaState)
        → IsJoinOf x y xy → IsJoinOf xy z left
        → IsJoinOf y z yz → IsJoinOf x yz right → IsSame left right }
    ensures idempotent { (x copy joint : DeltaState) → IsSame x copy
        → IsJoinOf x copy joint → IsSame joint x }
    ensures keeps_agreement { (x y z xy : DeltaState) → DeltasAgree x y → DeltasAgree x z → DeltasAgree y z
        → IsJoinOf x y xy → DeltasAgree xy z }
    ensures empty { (x nothing joint : DeltaState) → IsEmpty nothing
        → IsJoinOf x nothing joint → IsSame joint x }
    ensures into_empty { (x nothing joint : DeltaState) → IsEmpty nothing
        → IsJoinOf nothing x joint → IsSame joint x }
{}

/// Deltas that agree are not in conflict: no two deltas both agree and are in conflict (this project's own).
pub fn deltas_that_agree_are_not_in_conflict()
    ensures { (x y : DeltaState) → DeltasAgree x y → DeltasInConflict x y → ⊥ }
{}

/// Each knowledge has exactly one delta: two that stand for it say the same, and deltas that say the same stand for the same.
pub fn a_knowledge_has_one_delta()
    ensures some { (k : Knowledge) → (x : DeltaState) × IsDeltaOf x k }
    ensures one { (x y : DeltaState) (k : Knowledge)
        → IsDeltaOf x k → IsDeltaOf y k → IsSame x y }
    ensures same { (x y : DeltaState) (k : Knowledge)
        → IsSame x y → IsDeltaOf x k → IsDeltaOf y k }
{}

/// The delta of a consistent knowledge is that of each with the same operations, so it doesn't depend on their order or repetition
/// (RR-7506: replicas that have delivered the same updates are equivalent).
pub fn knowledges_of_the_same_operations_have_one_delta()
    ensures { (x : DeltaState) (k l : Knowledge) → IsConsistent k → SameOperations k l
        → IsDeltaOf x k → IsDeltaOf x l }
{}

/// A delta shows the same as its knowledge: dots, members, fields and totals, so rows and the meanings of commands are the same
/// (RR-7506: the payload of a replica stands for the updates that it has delivered).
pub fn a_delta_is_read_as_its_knowledge()
    ensures { (x : DeltaState) (k : Knowledge) → IsDeltaOf x k → IsReadAs x k }
{}

/// The deltas of two knowledges that are consistent together agree, so what sites make is never in conflict.
pub fn deltas_of_what_is_consistent_agree()
    ensures { (x y : DeltaState) (k l : Knowledge) → IsConsistent (k ++ l)
        → IsDeltaOf x k → IsDeltaOf y l → DeltasAgree x y }
{}

/// The join of the deltas of two knowledges is the delta of both together (RR-7506: a merge stands for the union of updates). The
/// sizes in the limits are those of this knowledge: the number of visible dots, and of runs of known ones.
pub fn a_join_stands_for_both()
    ensures joined { (x y joint : DeltaState) (k l : Knowledge)
        → IsDeltaOf x k → IsDeltaOf y l → IsJoinOf x y joint → IsDeltaOf joint (k ++ l) }
    ensures cells { (x y : DeltaState) (k l : Knowledge) → IsDeltaOf x k → IsDeltaOf y l
        → cells_joined x.members y.members ≡ set.len (visible_dots (k ++ l)) }
    ensures runs { (x y : DeltaState) (k l : Knowledge) → IsDeltaOf x k → IsDeltaOf y l
        → runs_joined x.members y.members ≡ run_count (known_dots (k ++ l)) }
    ensures own_cells { (x : DeltaState) (k : Knowledge) → IsDeltaOf x k
        → map.len x.members.live ≡ set.len (visible_dots k) }
{}

/// The delta of operations that leave traces is empty exactly where there are none.
pub fn operations_leave_traces_in_a_delta()
    ensures { (x : DeltaState) (buffer : Knowledge) → LeaveTraces buffer → IsDeltaOf x buffer
        → IsEmpty x ↔ (buffer ≡ []) }
{}
