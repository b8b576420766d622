//! A store in memory.
ghost use Rattle.std.specs.Prelude.{◌≡◌};

use dots::Memory;
use replica::Replica;
use site_journal::Step;
use stored_desk::{CommitFault, Growth, StepStore};

// A store in memory that counts its steps. It fails after a number of commits, and has no memory for a base before its first step.
#[derive(Drop)]
pub(crate) struct MemoryStore {
    pub base: Replica,
    pub steps: u64,
    pub commits_left: u32,
    // How many of its steps stood before its base.
    before_base: u64,
}

impl MemoryStore {
    // A store without a step, of a site that begins in this state.
    pub fn new(base: Replica, commits_left: u32) -> MemoryStore
        ensures base { result.base ≡ base }
        ensures steps { result.steps ≡ 0 }
    {
        MemoryStore {
            base,
            steps: 0,
            commits_left,
            before_base: 0,
        }
    }
}

// Its relations say nothing of its steps: the tests count them.
impl StepStore for MemoryStore {
    ghost use Rattle.std.specs.Prelude.{⊤};

    // How many steps a group has.
    type Group = u64;

    // How many steps stand before a base.
    type Base = u64;

    ghost groups = { λ group steps. ⊤ };

    ghost bases = { λ base site. ⊤ };

    ghost holds = { λ store list. ⊤ };

    ghost keeps = { λ store list more. ⊤ };

    ghost begun = { λ store. store.base };

    fn group(&self, steps: &[Step]) -> Result<u64, Memory> {
        Ok(steps.len() as u64)
    }

    fn commit(&mut self, group: u64) -> Result<(), CommitFault> {
        if self.commits_left == 0 {
            return Err(CommitFault::Full);
        }
        self.commits_left -= 1;
        self.steps = self.steps.saturating_add(group);
        Ok(())
    }

    fn base(&self, site: Replica) -> Result<u64, Memory> {
        drop(site);
        if self.steps == 0 {
            return Err(Memory);
        }
        Ok(self.steps)
    }

    fn replace_base(&mut self, base: u64) -> Result<(), CommitFault> {
        if self.commits_left == 0 {
            return Err(CommitFault::Full);
        }
        self.commits_left -= 1;
        self.before_base = base;
        Ok(())
    }

    // Each step counts as a row of 1,000 bytes.
    fn since_base(&self) -> Growth {
        let rows = self.steps.saturating_sub(self.before_base);
        Growth {
            rows,
            bytes: rows.saturating_mul(1_000),
        }
    }
}
