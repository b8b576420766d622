ghost use Rattle.std.specs.Prelude.{◌≡◌, ◌↔◌, IfOk, IsTrue};
ghost use Rattle.std.specs.FinSet as set;
ghost use Rattle.delta.specs.Frames.{IsSameFrame};

use crate::{Delta, Memory};
use dots::SiteId;

/// A frame that a site sends to others (RR-7506: a replica sends its state, or a part of it): its maker, its number among the
/// maker's frames, and a delta. In a frame with an encoding the number is from 1 to 2^40, and each queue's number is below
/// 256.
#[derive(Drop)]
pub struct Frame {
    /// The site that made it.
    pub maker: SiteId,
    /// Its number among its maker's frames, from 1.
    pub number: u64,
    /// Its members and totals.
    pub delta: Delta,
}

impl Frame {
    /// Whether both are of one maker, have one number, and say the same of each dot and total. Takes no memory.
    pub fn same(&self, other: &Frame) -> bool
        ensures { IsTrue result ↔ IsSameFrame self.now other.now }
    {
        self.maker == other.maker && self.number == other.number && self.delta.same(&other.delta)
    }

    /// A copy of the same maker and number that says the same. Fails only when out of memory.
    pub fn copy(&self) -> Result<Frame, Memory>
        ensures same { IfOk result (λ copy. IsSameFrame self.now copy) }
        ensures spent { IfOk result (λ copy. copy.delta.members.spent ≡ set.empty) }
        ensures retired { IfOk result (λ copy. copy.delta.members.retired ≡ 0) }
    {
        let delta = self.delta.copy()?;
        Ok(Frame {
            maker: self.maker,
            number: self.number,
            delta,
        })
    }
}
