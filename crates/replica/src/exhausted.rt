//! The refusal of a command for which no number is left: `MembersFull` before `Exhausted`.
ghost use Rattle.std.specs.Prelude.{◌≡◌, ◌<◌, ◌≤◌, length};
ghost use Rattle.replica.specs.Commands.{IsRefusalOfAdds, IsRefusalOfWrites};

use crate::full::is_full_with;
use crate::{Refusal, Replica};
use causal_context::ContextFault;
use dots::{Dot, MOST_LIVE, MOST_RUNS};

// The refusal of a change with too many runs, or that is out of memory.
pub(crate) fn refusal_of_runs(fault: ContextFault) -> Refusal
    ensures full { fault ≡ ContextFault.RunsFull → result ≡ Refusal.MembersFull }
    ensures memory { fault ≡ ContextFault.Memory → result ≡ Refusal.Memory }
{
    match fault {
        ContextFault::RunsFull => Refusal::MembersFull,
        ContextFault::Memory => Refusal::Memory,
    }
}

impl Replica {
    // The refusal of an add whose next count or next time is past 2^40: `MembersFull`, if the
    // state, the buffer or the operation would have too many live dots or runs, else `Exhausted`.
    // `Memory` may replace both.
    pub(crate) fn refuse_add(&self) -> Refusal
        ensures { IsRefusalOfAdds self.now result }
    {
        let next = self.count + 1;
        let dead = match self.state.members().dead_of(self.site) {
            Ok(dead) => dead,
            Err(fault) => return refusal_of_runs(fault),
        };
        if is_full_with(&self.state, &dead, 1, self.site, next) {
            return Refusal::MembersFull;
        }
        if is_full_with(&self.pending, &dead, 1, self.site, next) {
            return Refusal::MembersFull;
        }
        if dead.runs_with(&dead, self.site, next) > MOST_RUNS as u64 {
            return Refusal::MembersFull;
        }
        Refusal::Exhausted
    }

    // The refusal of a write on these dots, at least one, whose next time is past 2^40:
    // `MembersFull`, if the state, the buffer or the operation would have too many live dots or
    // runs, else `Exhausted`. `Memory` may replace both.
    pub(crate) fn refuse_write(&self, dots: &[Dot]) -> Refusal
        requires some { 0 < length dots.now }
        requires few { length dots.now ≤ MOST_LIVE }
        ensures { IsRefusalOfWrites self.now dots.now result }
    {
        let seen = match self.state.members().seen_below(dots) {
            Ok(seen) => seen,
            Err(fault) => return refusal_of_runs(fault),
        };
        let first = dots[0];
        let (site, count) = (first.site(), first.count());
        if is_full_with(&self.state, &seen, dots.len(), site, count) {
            return Refusal::MembersFull;
        }
        if is_full_with(&self.pending, &seen, dots.len(), site, count) {
            return Refusal::MembersFull;
        }
        Refusal::Exhausted
    }
}
