ghost use Rattle.std.specs.Prelude.{◌≡◌};

use crate::{Desk, DeskDown};
use replica::Replica;
use status_report::{Answer, Ask, ask};
use std::alloc::Global;

/// The desk of a replica with no other caller. It is never down, and waits for no thread.
#[derive(Drop)]
pub struct ReplicaDesk {
    alloc: Global,
    /// The site that answers.
    pub replica: Replica,
}

impl ReplicaDesk {
    /// The desk of this replica.
    pub fn new(alloc: Global, replica: Replica) -> ReplicaDesk
        ensures { result.replica ≡ replica }
    {
        ReplicaDesk { alloc, replica }
    }
}

impl<R> Desk<R> for ReplicaDesk {
    ghost use Rattle.serve.specs.Replicas.{AnswersAs};

    ghost answers = { λ old asked answer new. AnswersAs old.replica asked answer new.replica };

    ghost refuses = { λ old asked new. ⊥ };

    /// The replica's answer; there is always one.
    fn ask(&mut self, rt: &R, asked: Ask) -> Result<Answer, DeskDown> {
        Ok(ask(self.alloc, &mut self.replica, &asked))
    }
}
