ghost use Rattle.std.specs.Prelude.{IfNone, IfSome};
ghost use Rattle.link_stream.specs.Items.{item_bytes};

use crate::SendQueue;
use dots::SiteId;
use link_stream::Item;

/// What a link has to send, item by item, as its sender sees it (this project's own).
pub trait ItemQueue<R> {
    ghost use Rattle.std.specs.Prelude.{ℕ, List};

    /// `begins old peer new`: a link to the site of the number `peer` begins, and leads the queue from `old` to `new`.
    ghost begins: { Self → ℕ → Self → Type 0 };

    /// `gives old item new`: a call gives the item with the bytes `item`, and leads the queue from `old` to `new`.
    ghost gives: { Self → List ℕ → Self → Type 0 };

    /// `ends old new`: a call finds that the link is to end, and leads the queue from `old` to `new`.
    ghost ends: { Self → Self → Type 0 };

    /// Begins a link to this peer, after its hello and before its first item.
    fn begin(&mut self, rt: &R, peer: SiteId)
        ensures { begins self.old peer self.new };

    /// Waits for the next item, and returns it. `None`: the link is to end.
    fn next_item(&mut self, rt: &R) -> Option<Item>
        ensures given { IfSome result (λ item. gives self.old (item_bytes item) self.new) }
        ensures ended { IfNone result (ends self.old self.new) };
}

/// A queue of which all that waits is to be sent, and then the link is to end.
impl<R> ItemQueue<R> for SendQueue {
    ghost use Rattle.std.specs.Prelude.{◌≡◌, ◌⊎◌, [], None, true};
    ghost use Rattle.site_peers.specs.Queues.{IsTakenFrom};

    ghost begins = { λ old peer new. new ≡ old };

    ghost gives = { λ old item new. IsTakenFrom old item new };

    ghost ends = { λ old new. (new ≡ old) × (old.whole ≡ None)
        × ((old.box.whole_due ≡ true) ⊎ (old.box.frames ≡ [])) };

    // What waits stays.
    fn begin(&mut self, _rt: &R, _peer: SiteId) {}

    // It never waits. `None` also while a whole is due.
    fn next_item(&mut self, _rt: &R) -> Option<Item> {
        match self.take() {
            Some(frame) => Some(Item::Frame(frame)),
            None => None,
        }
    }
}
