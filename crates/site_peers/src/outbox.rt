ghost use Rattle.std.specs.Prelude.{◌≡◌};
ghost use Rattle.site_peers.specs.Queues.{IsGiven, IsPut};

use crate::{MadeFrame, SendQueue, WholeFrame};
use dots::SharedBytes;
use site_journal::StepDeed;

/// Where what a site makes waits for one peer, as the thread sees it that makes frames (this project's own).
pub trait Outbox<R> {
    ghost use Rattle.std.specs.Prelude.{Bool};
    ghost use Rattle.site_journal.specs.declared.receipt.Receipt.{Receipt};

    /// `handed old receipt wants new`: the outbox is handed the receipt of a cut or a whole, which leads it from `old` to `new`, and says
    /// whether it wants a whole.
    ghost handed: { Self → Receipt → Bool → Self → Type 0 };

    /// Hands it a receipt. The frame of a cut then waits for the peer, and a whole does if it is wanted; another receipt leaves what waits
    /// as it is. It never waits for the peer. Returns whether the outbox then wants a whole: one that is made after this call is for its
    /// peer.
    fn hand(&mut self, rt: &R, made: &MadeFrame<'_>) -> bool
        ensures { handed self.old made.now result self.new };
}

// Puts a frame. Where memory is refused a whole is due in its place.
fn put_frame(queue: &mut SendQueue, frame: &SharedBytes)
    ensures { IsPut queue.old frame.now queue.new }
{
    let _ = queue.put(frame);
}

// Gives a whole. Where memory is refused it stays wanted.
fn give_whole(queue: &mut SendQueue, whole: &WholeFrame<'_>)
    ensures { IsGiven queue.old whole.now queue.new }
{
    let _ = queue.give_whole(whole);
}

impl<R> Outbox<R> for SendQueue {
    ghost use Rattle.site_peers.specs.Outboxes.{IsHanded};

    ghost handed = { λ old receipt wants new. IsHanded old receipt.deed wants new };

    // Where memory is refused the queue notes that: a whole is then due, or stays wanted.
    fn hand(&mut self, _rt: &R, made: &MadeFrame<'_>) -> bool {
        match (&made.receipt.deed, &made.whole) {
            (StepDeed::Cut(Some(frame)), _) => put_frame(self, frame),
            (StepDeed::Whole(_), Some(whole)) => give_whole(self, whole),
            _ => {}
        }
        self.begin_whole()
    }
}
