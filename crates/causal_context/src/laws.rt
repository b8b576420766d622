//! Laws of sets of dots. The functions have no body: their contracts are the laws.

ghost use Rattle.std.specs.Prelude.{◌≡◌, ◌↔◌, IsTrue, List, false, length};
ghost use Rattle.std.specs.FinSet as set;
ghost use Rattle.std.specs.List.{All};
ghost use Rattle.dots.specs.Values.{Dot};
ghost use Rattle.dots.specs.Orders.{dot_cmp};
ghost use Rattle.general_lemmas.specs.Joins.{IsJoin};
ghost use Rattle.dots.specs.DotSets.{IsRunsOf, Run, first_dot, last_dot, next_dot, run_count};

/// Join of contexts is the union: commutative, associative and idempotent. Any two contexts agree.
pub fn contexts_are_joined()
    ensures { IsJoin {T = set.FinSet dot_cmp} (λ _ _. Unit {0}) set.union }
{}

/// That one context covers another is the order of subsets.
pub fn covers_by_subset()
    ensures members { (a b : set.FinSet dot_cmp)
        → IsTrue (set.is_subset a b)
        ↔ ((d : Dot) → IsTrue (set.contains a d) → IsTrue (set.contains b d)) }
    ensures reflexive { (a : set.FinSet dot_cmp) → IsTrue (set.is_subset a a) }
    ensures antisymmetric { (a b : set.FinSet dot_cmp) → IsTrue (set.is_subset a b)
        → IsTrue (set.is_subset b a) → a ≡ b }
    ensures transitive { (a b c : set.FinSet dot_cmp) → IsTrue (set.is_subset a b)
        → IsTrue (set.is_subset b c) → IsTrue (set.is_subset a c) }
    ensures by_union { (a b : set.FinSet dot_cmp)
        → IsTrue (set.is_subset a b) ↔ (set.union a b ≡ b) }
{}

/// A set of dots has one list of runs, so that equal contexts have equal slices; the list's length is the number of
/// runs of the set.
pub fn has_one_list_of_runs()
    ensures some { (dots : set.FinSet dot_cmp) → (a : List Run) × IsRunsOf a dots }
    ensures unique { (a b : List Run) (dots : set.FinSet dot_cmp) → IsRunsOf a dots
        → IsRunsOf b dots → a ≡ b }
    ensures counted { (a : List Run) (dots : set.FinSet dot_cmp) → IsRunsOf a dots
        → run_count dots ≡ length a }
{}

/// The runs of a set are its longest runs: neither the dot past the last one of a run nor the dot before its first
/// one is in the set.
pub fn has_longest_runs()
    ensures past { (a : List Run) (dots : set.FinSet dot_cmp) → IsRunsOf a dots
        → All (λ run. set.contains dots (next_dot (last_dot run)) ≡ false) a }
    ensures before { (a : List Run) (dots : set.FinSet dot_cmp) → IsRunsOf a dots
        → All (λ run. (d : Dot) → next_dot d ≡ first_dot run → set.contains dots d ≡ false) a }
{}
