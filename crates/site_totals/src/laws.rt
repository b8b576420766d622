//! Laws of the join of totals. The functions have no body: their contracts are the laws.
ghost use Rattle.std.specs.Prelude.{◌≡◌, ◌+◌, ℕ};
ghost use Rattle.dots.specs.declared.calls.Calls.{Calls};
ghost use Rattle.general_lemmas.specs.Joins.{IsJoin};
ghost use Rattle.operations.specs.Totals.{Entries, InLimits, Key, join_of, single, totals_at, totals_of};
ghost use Rattle.operations.specs.Totals.{greater};
ghost use Rattle.site_totals.specs.Raising.{alone, number_of, raised_totals};

/// Join of totals is commutative, associative and idempotent (RR-7506's grow-only counter). Any two totals
/// agree.
pub fn totals_are_joined()
    ensures { IsJoin {T = Entries} (λ _ _. Unit {0}) join_of }
{}

/// The join of two totals has the greater of both for each site and queue.
pub fn join_takes_the_greater()
    ensures { (x y : Entries) (site queue : ℕ)
        → totals_of (join_of x y) site queue
        ≡ greater (totals_of x site queue) (totals_of y site queue) }
{}

/// Totals within the limits that read alike for each site and queue have the same entries.
pub fn totals_that_read_alike_are_equal()
    ensures { (x y : Entries) → InLimits x → InLimits y
        → ((site queue : ℕ) → totals_of x site queue ≡ totals_of y site queue) → x ≡ y }
{}

/// To count one more call is to join the new total: totals only grow.
pub fn raise_is_a_join()
    ensures { (x : Entries) (key : Key) (calls : Calls)
        → raised_totals x key calls
        ≡ join_of x (single key (alone calls (number_of calls (totals_at x key) + 1))) }
{}
