//! The steps of a journal, with their payload in bytes.
ghost use Rattle.std.specs.Prelude.{◌≡◌, ◌<◌, ◌≤◌, ◌+◌, ◌-◌, ◌^◌, ◌++◌, ◌∷◌, [], OnOk, min};
ghost use Rattle.std.specs.Prelude.{vec_capacity, vec_len};
ghost use Rattle.site_journal.specs.Keeping.{kept_by_steps};

use crate::Step;
use crate::keeping::kept_by_deed;
use dots::Memory;
use std::alloc::Global;
use std::mem;

// Steps in order. Their payload is updated with each step, so that no call walks over them.
#[derive(Drop)]
pub(crate) struct StepList {
    pub steps: Vec<Step>,
    // Their payload in bytes, 2^64 - 1 at most.
    pub payload_bytes: u64,
    pub ghost counted: { payload_bytes ≡ min (kept_by_steps steps.items) (2 ^ 64 - 1) },
}

impl StepList {
    // A list of no step. Takes no memory.
    pub fn new(alloc: Global) -> StepList
        ensures { result.steps.items ≡ [] }
    {
        StepList {
            steps: Vec::new(alloc),
            payload_bytes: 0,
        }
    }

    // Reserves room for one step more. Fails only when out of memory.
    pub fn reserve_one(&mut self) -> Result<(), Memory>
        ensures items { self.new.steps.items ≡ self.old.steps.items }
        ensures room { OnOk result (vec_len self.new.steps < vec_capacity self.new.steps) }
    {
        self.steps.reserve(1)
    }

    // Appends a step, for which room was reserved.
    pub fn push_reserved(&mut self, step: Step)
        requires { vec_len self.old.steps < vec_capacity self.old.steps }
        ensures items { self.new.steps.items ≡ self.old.steps.items ++ step ∷ [] }
    {
        self.payload_bytes = self.payload_bytes.saturating_add(kept_by_deed(&step.deed));
        self.steps.push_reserved(step);
    }

    // Takes all steps out and returns them; the list has none then. Takes no memory.
    pub fn take_all(&mut self) -> Vec<Step>
        ensures taken { result.items ≡ self.old.steps.items }
        ensures none { self.new.steps.items ≡ [] }
    {
        let none = Vec::new(*self.steps.allocator());
        self.payload_bytes = 0;
        mem::replace(&mut self.steps, none)
    }
}
