//! Laws of what waits for a peer. The functions have no body of their own: their contracts are the laws.
ghost use Rattle.std.specs.Prelude.{◌≡◌, ◌⊎◌, ◌++◌, ◌∷◌, ℕ, List, false, true};
ghost use Rattle.site_peers.specs.Queues.{HaveHappened, QueueEvent, QueueState, all_put};
ghost use Rattle.site_peers.specs.Queues.{all_taken, waiting, with_whole};

/// Nothing is lost without a whole: from a queue of a connected peer in which no whole is due, after any puts and takes, either a whole is
/// due, which is made later than every frame that was put; or what was taken and what waits is, in order, what waited and then each frame
/// that was put.
pub fn no_frame_is_lost_without_a_whole()
    ensures { (old new : QueueState) (events : List QueueEvent) → old.box.is_open ≡ true
        → old.box.whole_due ≡ false → HaveHappened old events new
        → (new.box.whole_due ≡ true)
        ⊎ (all_taken events ++ waiting new ≡ waiting old ++ all_put events) }
{}

/// A whole is due no more once the queue was given it, so each later frame follows it: after any puts and takes either a whole is due
/// again; or what was taken since and what waits is, in order, that whole and then each frame that was put. So nothing is lost that a site
/// cuts after it has made the whole.
pub fn a_whole_is_followed_by_each_frame()
    ensures { (old new : QueueState) (whole : List ℕ) (events : List QueueEvent)
        → old.box.is_open ≡ true → HaveHappened (with_whole old whole) events new
        → (new.box.whole_due ≡ true)
        ⊎ (all_taken events ++ waiting new ≡ whole ∷ all_put events) }
{}
