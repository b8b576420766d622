//! Laws of the join of registers and of fields. The functions have no body: their contracts are the laws.
ghost use Rattle.std.specs.Prelude.{◌≡◌, Option};
ghost use Rattle.general_lemmas.specs.Joins.{IsJoin, IsLeastAbove, IsOrder};
ghost use Rattle.operations.specs.Registers.{Entry, RegistersAgree, IsBelow, KeepsLatest, join_of};
ghost use Rattle.operations.specs.Conditions.{DotFields, FieldsAgree, fields_joined};

/// The join of two registers keeps the entry of the greatest stamp: it is empty only where both are, else
/// it holds an entry of one of them, and none of theirs is under a greater stamp (RR-7506).
pub fn join_keeps_latest<T>()
    ensures { (x y : Option (Entry T)) → KeepsLatest x y (join_of x y) }
{}

/// Join is commutative, associative and idempotent on registers that agree, and the join of two that agree is the least upper
/// bound (RR-7506). A register that agrees with two others agrees with their join, also if these two don't agree.
pub fn registers_are_joined<T>()
    ensures join { IsJoin {T = Option (Entry T)} RegistersAgree join_of }
    ensures keeps_agreement { (x y z : Option (Entry T)) → RegistersAgree x z → RegistersAgree y z
        → RegistersAgree (join_of x y) z }
    ensures ordered { IsOrder (IsBelow {T = T}) }
    ensures least { (x y : Option (Entry T)) → RegistersAgree x y → IsLeastAbove IsBelow x y (join_of x y) }
{}

/// Join is commutative, associative and idempotent on fields that agree. Fields that agree with those of two dots agree with
/// their join, also if these two don't agree.
pub fn fields_are_joined()
    ensures join { IsJoin FieldsAgree fields_joined }
    ensures keeps_agreement { (x y z : DotFields) → FieldsAgree x z → FieldsAgree y z
        → FieldsAgree (fields_joined x y) z }
{}
