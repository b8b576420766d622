//! Laws of a knowledge. The functions have no body: their contracts are the laws.
ghost use Rattle.std.specs.Prelude.{◌≡◌, ◌↔◌, ◌≤◌, ◌<◌, ℕ, true, false, Option, Some, None, IsSome};
ghost use Rattle.std.specs.Prelude.{◌++◌};
ghost use Rattle.std.specs.FinSet as set;
ghost use Rattle.dots.specs.declared.calls.Calls.{Calls};
ghost use Rattle.dots.specs.declared.member.Member.{Member};
ghost use Rattle.dots.specs.Values.{Dot};
ghost use Rattle.dots.specs.Orders.{dot_cmp};
ghost use Rattle.operations.specs.Totals.{Entries, sum_below};
ghost use Rattle.general_lemmas.specs.Joins.{IsJoin, IsOrder, IsLeastAbove};
ghost use Rattle.operations.specs.Conditions.{Condition, Dead, ConditionsAgree, IsConditionBelow};
ghost use Rattle.operations.specs.Conditions.{Represents, IsOne, condition_joined};
ghost use Rattle.operations.specs.Operations.{penalty_field, pause_field, label_field, ring_field};
ghost use Rattle.operations.specs.Knowledge.{Knowledge, SameOperations, IsConsistent, is_named};
ghost use Rattle.operations.specs.Knowledge.{visible_dots};
ghost use Rattle.operations.specs.Rows.{DotView, MemberRow, ShowAlike, dot_view, row_of, rows_of};
ghost use Rattle.operations.specs.Counts.{site_total, queue_total};
ghost use Rattle.operations.specs.Shown.{IsVisible, IsComputed, HasVisibleDot, HasValues, ShowsField};
ghost use Rattle.operations.specs.Shown.{ShowsLatest, ShowTheSame, IsGreatestCount};

use dots::SITES;

/// A dot is visible exactly where some operation asserts it and none names it (RR-8083).
pub fn a_visible_dot_is_asserted_and_not_named()
    ensures { (k : Knowledge) (dot : Dot)
        → (set.contains (visible_dots k) dot ≡ true) ↔ IsVisible k dot }
{}

/// A named dot stays dead: no operations before or after make it visible again (RR-8083).
pub fn a_named_dot_is_dead_for_good()
    ensures { (before k after : Knowledge) (dot : Dot) → is_named k dot ≡ true
        → set.contains (visible_dots (before ++ k ++ after)) dot ≡ false }
{}

/// Consistent knowledges of the same operations show the same rows and totals, so order and repetition don't matter
/// (RR-7506: replicas that have delivered the same updates are equivalent).
pub fn knowledges_of_the_same_operations_show_the_same()
    ensures { (k l : Knowledge) → IsConsistent k → SameOperations k l → ShowTheSame k l }
{}

/// A member has a row exactly where a dot of it is visible, and each field of the row is the setting of the greatest stamp
/// over its visible dots, for equal stamps that of the least dot, or the default where none of them is set (RR-7506's
/// last-writer register).
pub fn a_member_with_a_visible_dot_has_a_row()
    ensures there { (k : Knowledge) (member : Member)
        → IsSome (row_of (dot_view k) member) ↔ HasVisibleDot k member }
    ensures values { (k : Knowledge) (member : Member) (row : MemberRow)
        → row_of (dot_view k) member ≡ Some row → HasValues k member row }
    ensures penalty_shown { (k : Knowledge) (member : Member) → ShowsField penalty_field k member }
    ensures pause_shown { (k : Knowledge) (member : Member) → ShowsField pause_field k member }
    ensures label_shown { (k : Knowledge) (member : Member) → ShowsField label_field k member }
    ensures ring_shown { (k : Knowledge) (member : Member) → ShowsField ring_field k member }
    ensures penalty { (k : Knowledge) (member : Member) → ShowsLatest penalty_field k member }
    ensures pause { (k : Knowledge) (member : Member) → ShowsLatest pause_field k member }
    ensures label { (k : Knowledge) (member : Member) → ShowsLatest label_field k member }
    ensures ring { (k : Knowledge) (member : Member) → ShowsLatest ring_field k member }
{}

/// The computed field of a dot is the latest setting, and is there exactly where some operation that asserts the dot sets it
/// (RR-7506's last-writer register).
pub fn a_field_is_the_latest_setting()
    ensures penalty { (k : Knowledge) (dot : Dot) → IsComputed penalty_field k dot }
    ensures pause { (k : Knowledge) (dot : Dot) → IsComputed pause_field k dot }
    ensures label { (k : Knowledge) (dot : Dot) → IsComputed label_field k dot }
    ensures ring { (k : Knowledge) (dot : Dot) → IsComputed ring_field k dot }
{}

/// A site's total is its greatest count, and a queue's the sum over the sites (RR-7506's grow-only counter).
pub fn totals_are_sums_of_greatest_counts()
    ensures site { (k : Knowledge) (site queue : ℕ) (calls : Calls)
        → IsGreatestCount k site queue calls (site_total k site queue calls) }
    ensures queue { (k : Knowledge) (queue : ℕ) (calls : Calls)
        → queue_total k queue calls ≡ sum_below SITES (λ site. site_total k site queue calls) }
{}

/// A queue's total is at least each site's, and doesn't fall as the knowledge grows (RR-7506's grow-only counter).
pub fn totals_do_not_fall()
    ensures each_site { (k : Knowledge) (site queue : ℕ) (calls : Calls) → site < SITES
        → site_total k site queue calls ≤ queue_total k queue calls }
    ensures more_after { (k more : Knowledge) (queue : ℕ) (calls : Calls)
        → queue_total k queue calls ≤ queue_total (k ++ more) queue calls }
    ensures more_before { (k more : Knowledge) (queue : ℕ) (calls : Calls)
        → queue_total k queue calls ≤ queue_total (more ++ k) queue calls }
{}

/// Conditions are ordered, and the join of two that agree is the least that is above both (RR-7506: a merge is the least
/// upper bound).
pub fn a_join_of_conditions_is_the_least_above_both()
    ensures ordered { IsOrder IsConditionBelow }
    ensures least { (x y : Option Condition) → ConditionsAgree x y
        → IsLeastAbove IsConditionBelow x y (condition_joined x y) }
{}

/// Join is commutative, associative and idempotent on conditions that agree (RR-7506: states form a join semilattice). A dead
/// dot stays dead and kills the other, and an unknown one changes nothing (RR-8083).
pub fn conditions_are_joined()
    ensures join { IsJoin ConditionsAgree condition_joined }
    ensures dead_wins { (x : Option Condition)
        → (condition_joined (Some Dead) x ≡ Some Dead)
        × (condition_joined x (Some Dead) ≡ Some Dead) }
    ensures unknown_is_neutral { (x : Option Condition)
        → (condition_joined None x ≡ x) × (condition_joined x None ≡ x) }
{}

/// Any two representations of one knowledge are equal: the same condition of each dot, the same known dots and the same
/// totals.
pub fn what_stands_for_a_knowledge_is_one()
    ensures { (c d : Dot → Option Condition) (known heard : set.FinSet dot_cmp)
        (counts totals : Entries) (k : Knowledge)
        → Represents c known counts k → Represents d heard totals k
        → IsOne c d known heard counts totals }
{}

/// Views that show alike, of a knowledge or of a state that stands for it, have the same rows: unspecified values for dots
/// that aren't visible have no effect.
pub fn views_that_show_alike_have_the_same_rows()
    ensures row { (r s : DotView) → ShowAlike r s → (member : Member)
        → row_of r member ≡ row_of s member }
    ensures rows { (r s : DotView) → ShowAlike r s → (queue : ℕ)
        → rows_of r queue ≡ rows_of s queue }
{}
