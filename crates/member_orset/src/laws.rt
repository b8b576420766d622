//! A law of member sets. The function has no body: its contract is the law.
ghost use Rattle.member_orset.specs.Members.{SetsAgree, SetsInConflict, Members};

/// Sets that agree are not in conflict (this project's own).
pub fn sets_that_agree_are_not_in_conflict()
    ensures { (s t : Members) → SetsAgree s t → SetsInConflict s t → ⊥ }
{}
