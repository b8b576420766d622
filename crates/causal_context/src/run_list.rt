ghost use Rattle.std.specs.Prelude.{◌≡◌, ◌+◌, ◌^◌, ◌<◌, ◌≤◌, [], IfOk, IsOk, OnOk, length};
ghost use Rattle.dots.specs.DotSets.{run_count, set_of};
ghost use Rattle.causal_context.specs.ListedRuns.{AreRuns};

use crate::Run;
use dots::Memory;
use std::alloc::Global;
use std::marker::Model;

// Runs within the limits, each before all that follow it: the longest runs of a set of dots. Its callers limit their number.
#[derive(Drop)]
pub(crate) struct RunList {
    pub(crate) runs: Vec<Run>,
}

impl Model for RunList {
    ghost use Rattle.std.specs.Vec.{vec_capacity};
    ghost use Rattle.causal_context.specs.ListedRuns.{Listed, AreRuns};

    ghost Value = { Listed };

    ghost view = { λ l. record { items = l.runs.items; room = vec_capacity l.runs } };

    ghost invariant = { λ l. AreRuns l.runs.items };
}

impl RunList {
    // No runs. Takes no memory.
    pub(crate) fn new(alloc: Global) -> RunList
        ensures { result.items ≡ [] }
    {
        RunList {
            runs: Vec::new(alloc),
        }
    }

    // The runs, in order.
    pub(crate) fn as_slice(&self) -> &[Run]
        ensures value { result.now ≡ self.now.items }
        ensures runs { AreRuns result.now }
    {
        self.runs.as_slice()
    }

    // The number of runs.
    pub(crate) fn len(&self) -> usize
        ensures value { result ≡ length self.now.items }
        ensures counted { result ≡ run_count (set_of self.now.items) }
        ensures limit { result < 2 ^ 62 }
    {
        self.as_slice().len()
    }

    // The number of runs for which there is room.
    pub(crate) fn room(&self) -> usize
        ensures { result ≡ self.now.room }
    {
        self.runs.capacity()
    }

    // Makes room for `more` more runs. Fails only when out of memory.
    pub(crate) fn reserve(&mut self, more: usize) -> Result<(), Memory>
        ensures kept { self.new.items ≡ self.old.items }
        ensures made { OnOk result
            (run_count (set_of self.new.items) + more ≤ self.new.room) }
        ensures again { run_count (set_of self.old.items) + more ≤ self.old.room
            → IsOk result }
        ensures room { self.old.room ≤ self.new.room }
    {
        if self.runs.reserve(more).is_err() {
            return Err(Memory);
        }
        Ok(())
    }

    // Returns a copy. Fails only when out of memory.
    pub(crate) fn copy(&self) -> Result<RunList, Memory>
        ensures { IfOk result (λ copy. copy.items ≡ self.now.items) }
    {
        match Vec::from_slice(*self.runs.allocator(), &self.runs) {
            Ok(runs) => Ok(RunList { runs }),
            Err(_) => Err(Memory),
        }
    }
}
