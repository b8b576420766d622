//! Invariants of a desk over a session. The function has no body: its contract is the law.
ghost use Rattle.std.specs.Prelude.{◌≡◌, ◌≤◌, ℕ, Bool, true};
ghost use Rattle.serve.specs.Desks.{EachKeeps, HasWorked, IsPreorder};

use crate::Desk;

/// If each answer and each refusal of a desk keeps a property of its states, a whole session keeps
/// it, however it ends (`serve`: desk). The property is one of three: a value read from the state
/// stays, a number doesn't fall, or a preorder holds from the state before to the state after.
pub fn a_session_keeps_what_each_answer_keeps<R, D: Desk<R>, X>()
    ensures same { (shows : D → X)
        → EachKeeps D.answers D.refuses (λ d e. shows e ≡ shows d)
        → (d e : D) → HasWorked D.answers D.refuses d e → shows e ≡ shows d }
    ensures no_less { (counts : D → ℕ)
        → EachKeeps D.answers D.refuses (λ d e. counts d ≤ counts e)
        → (d e : D) → HasWorked D.answers D.refuses d e → counts d ≤ counts e }
    ensures passes { (passes : D → D → Bool) → IsPreorder passes
        → EachKeeps D.answers D.refuses (λ d e. passes d e ≡ true)
        → (d e : D) → HasWorked D.answers D.refuses d e → passes d e ≡ true }
{}
