//! Frames that a site makes, and frames that it takes.
ghost use Rattle.std.specs.Prelude.{◌≡◌, ◌+◌, ◌↔◌, Err, IfErr, IfOk, IfSome, IsOk, None, Ok, OnErr};
ghost use Rattle.std.specs.Prelude.{OnOk};
ghost use Rattle.operations.specs.Knowledge.{Knowledge};
ghost use Rattle.delta.specs.DeltaStates.{IsEmpty};
ghost use Rattle.delta.specs.Joining.{IsPrepared};
ghost use Rattle.delta.specs.Standing.{IsDeltaOf};
ghost use Rattle.delta.specs.Frames.{IsInRanges};
ghost use Rattle.replica.specs.Framing.{HasCopied, HasCut, IsMeantCut, IsMeantFrame};
ghost use Rattle.replica.specs.Site.{IsUnchanged};
ghost use Rattle.replica.specs.Standing.{StandsFor};
ghost use Rattle.replica.specs.Steps.{Cut, SiteKnowledge, Take, Whole, step};
ghost use Rattle.replica.specs.Taking.{HasNoneLater, HasTakenDelta, IsMeantTake};
ghost use Rattle.replica.specs.Taking.{IsRefusedFor, IsRefusedTake, MayHear, MayTake};
ghost use Rattle.replica.specs.Taking.{take_fault_of};

use crate::foreign::hear;
use crate::{CutFault, Frame, Replica, TakeFault};
use delta::{Delta, JoinFault};
use dots::MOST_COUNT;
use std::mem;

// The fault of a take for a delta that can't be joined.
fn take_fault_of(fault: JoinFault) -> TakeFault
    ensures { result ≡ take_fault_of fault }
{
    match fault {
        JoinFault::Conflict => TakeFault::Conflict,
        JoinFault::CellsFull => TakeFault::CellsFull,
        JoinFault::RunsFull => TakeFault::RunsFull,
        JoinFault::Memory => TakeFault::Memory,
    }
}

impl Replica {
    /// Puts the buffer into a frame of this site, under its next number, and begins an empty buffer (RR-7506: what a site has made
    /// is sent to the others). Takes no memory. `None` exactly where the buffer is empty, and then no number is used. Fails only
    /// with `Exhausted`, exactly where the buffer isn't empty and the site has made 2^40 frames. `None` and `Exhausted` change
    /// nothing.
    pub fn cut(&mut self) -> Result<Option<Frame>, CutFault>
        ensures nothing { (result ≡ Ok None) ↔ IsEmpty self.old.pending }
        ensures frame { IfOk result (λ cut. IfSome cut (λ frame. HasCut self.old frame self.new)) }
        ensures exhausted { (result ≡ Err CutFault.Exhausted)
            ↔ ((IsEmpty self.old.pending → ⊥) × (self.old.frames ≡ MOST_COUNT)) }
        ensures only { IfErr result (λ fault. fault ≡ CutFault.Exhausted) }
        ensures none { result ≡ Ok None → self.new ≡ self.old }
        ensures err { OnErr result (self.new ≡ self.old) }
        ensures in_ranges { IfOk result (λ cut. IfSome cut (λ frame. IsInRanges frame)) }
        ensures meaning { (s : SiteKnowledge) → StandsFor self.old s
            → IsMeantCut self.new result (step self.old.site self.old.names s Cut) }
    {
        if self.pending.is_empty() {
            return Ok(None);
        }
        if self.frames == MOST_COUNT {
            return Err(CutFault::Exhausted);
        }
        self.frames += 1;
        let delta = mem::replace(&mut self.pending, Delta::empty(self.alloc));
        Ok(Some(Frame {
            maker: self.site,
            number: self.frames,
            delta,
        }))
    }

    /// Makes a frame of everything that the site knows, also if that is nothing, under its next number; the buffer stays as it is
    /// (RR-7506: a replica sends its state). Both kinds of frames are within the ranges of the format. Errors, in order, each of
    /// which changes nothing: 1 `Exhausted`, exactly where the site has made 2^40 frames; 2 `Memory`.
    pub fn whole(&mut self) -> Result<Frame, CutFault>
        ensures frame { IfOk result (λ frame. HasCopied self.old frame self.new) }
        ensures exhausted { (result ≡ Err CutFault.Exhausted) ↔ (self.old.frames ≡ MOST_COUNT) }
        ensures err { OnErr result (self.new ≡ self.old) }
        ensures in_ranges { IfOk result (λ frame. IsInRanges frame) }
        ensures meaning { (s : SiteKnowledge) → StandsFor self.old s
            → IsMeantFrame self.new result (step self.old.site self.old.names s Whole) }
    {
        if self.frames == MOST_COUNT {
            return Err(CutFault::Exhausted);
        }
        let Ok(delta) = self.state.copy() else {
            return Err(CutFault::Memory);
        };
        self.frames += 1;
        Ok(Frame {
            maker: self.site,
            number: self.frames,
            delta,
        })
    }

    /// Uses up the site's next frame number and returns it. It numbers a frame of everything that the site knows; the caller writes
    /// the frame's bytes from the state itself, so that no copy of the state is made. Takes no memory. Fails only with `Exhausted`,
    /// exactly where the site has made 2^40 frames, and then changes nothing.
    pub fn use_frame_number(&mut self) -> Result<u64, CutFault>
        ensures number { IfOk result (λ number. number ≡ self.old.frames + 1) }
        ensures used { OnOk result
            (self.new ≡ record self.old { frames = self.old.frames + 1 }) }
        ensures exhausted { (result ≡ Err CutFault.Exhausted) ↔ (self.old.frames ≡ MOST_COUNT) }
        ensures only { IfErr result (λ fault. fault ≡ CutFault.Exhausted) }
        ensures err { OnErr result (self.new ≡ self.old) }
    {
        if self.frames == MOST_COUNT {
            return Err(CutFault::Exhausted);
        }
        self.frames += 1;
        Ok(self.frames)
    }

    /// Joins a frame of any maker into the state; the buffer stays as it is (RR-7506: a replica merges what it is sent). Live dots
    /// keep their ids, and the site's last numbers stay. A fault returns the frame unchanged, and leaves what the site says.
    ///
    /// Errors, in order: 1 `NoSuchQueue`, exactly where a live dot or a total is of a queue that isn't in the list; 2 `NotMine`,
    /// exactly where the frame has something of this site that the site hasn't made: a dot past its last count, a field of a live
    /// dot past its last time, or a total past its own; 3 `Conflict`, exactly where a dot is live in both with two members, or with
    /// a field of one stamp and two values; 4 `CellsFull`, exactly where the join has more than 16,384 live dots; 5 `RunsFull`,
    /// exactly where the known dots of both make more than 65,536 runs; 6 `Memory`, never where the state was prepared for the
    /// frame's delta (`Delta::prepared`).
    pub fn take(&mut self, frame: Frame) -> Result<(), (TakeFault, Frame)>
        ensures joined { OnOk result (HasTakenDelta self.old frame.delta self.new) }
        ensures may { OnOk result (MayTake self.old frame.delta) }
        ensures refusals { IsRefusedTake self.old frame.delta (λ fault. IsRefusedFor result fault) }
        ensures prepared { MayHear self.old frame.delta → IsPrepared self.old.state frame.delta
            → IsOk result }
        ensures back { IfErr result (λ refused. refused.1 ≡ frame) }
        ensures unchanged { OnErr result (IsUnchanged self.old self.new) }
        ensures meaning { (s : SiteKnowledge) (k : Knowledge) → StandsFor self.old s
            → IsDeltaOf frame.delta k → HasNoneLater self.old k
            → IsMeantTake self.new result (step self.old.site self.old.names s (Take k)) }
    {
        if let Err(fault) = hear(self, &frame.delta) {
            return Err((fault, frame));
        }
        if let Err(fault) = self.state.prepare(&frame.delta) {
            return Err((take_fault_of(fault), frame));
        }
        let Frame { delta, .. } = frame;
        self.state.absorb(delta);
        Ok(())
    }
}
