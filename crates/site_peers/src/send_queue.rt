ghost use Rattle.std.specs.Prelude.{◌≡◌, ◌⊎◌, ◌+◌, ◌<◌, ◌≤◌, ◌↔◌, ◌∷◌, ◌++◌, [], IfNone, IfSome, IsTrue};
ghost use Rattle.std.specs.Prelude.{None, OnErr, OnOk, Ok, Some, false, length, true};
ghost use Rattle.peer_box.specs.Boxes.{bytes_waiting};
ghost use Rattle.site_peers.specs.Queues.{IsBegun, IsNews, IsTakenFrom, WantsWhole, closed};
ghost use Rattle.site_peers.specs.Queues.{content_digest, new_queue, opened, out_of_memory, waiting};
ghost use Rattle.site_peers.specs.Queues.{with_frame, with_whole, without_frames};

use crate::WholeFrame;
use dots::SharedBytes;
use peer_box::{Due, PeerBox};
use std::alloc::{AllocError, Global};
use std::marker::Model;

/// What waits for one peer, in the order in which its link sends it: a whole that was made for it, and the frames after that whole. A
/// whole is due when the peer connects, and when frames are given up because they have no room. Frames that are put while a whole is due
/// are ignored, since the whole is made later. A whole answers an ask, or the peer's connection, only if it was begun after it.
#[derive(Drop)]
pub struct SendQueue {
    frames: PeerBox,
    // The whole that waits, before all frames.
    whole: Option<SharedBytes>,
    // Whether a whole is asked for that waits only if it says something else than the last one.
    is_asked: bool,
    // Whether a whole is being made for the peer.
    is_being_made: bool,
    // The digest of what the last whole says that was given since the peer connected.
    last: Option<[u8; 32]>,
    // Whether an allocation was refused since a whole was last given.
    lacks_memory: bool,
}

impl Model for SendQueue {
    ghost use Rattle.std.specs.Prelude.{◌≡◌, true};
    ghost use Rattle.site_peers.specs.Queues.{QueueState};

    ghost Value = { QueueState };

    ghost view = { λ q. record {
      box = q.frames;
      whole = q.whole;
      asked = q.is_asked;
      making = q.is_being_made;
      last = q.last;
      lacking = q.lacks_memory;
    } };

    ghost invariant = { λ q. q.is_being_made ≡ true → q.frames.is_open ≡ true };
}

impl SendQueue {
    /// The queue of a peer that isn't connected. At most `limit` bytes of frames wait in it, beside a whole. It takes no memory.
    pub fn new(alloc: Global, limit: usize) -> SendQueue
        ensures { result ≡ new_queue limit }
    {
        SendQueue {
            frames: PeerBox::new(alloc, limit),
            whole: None,
            is_asked: false,
            is_being_made: false,
            last: None,
            lacks_memory: false,
        }
    }

    /// The peer has connected: nothing waits, and a whole is due.
    pub fn open(&mut self)
        ensures { self.new ≡ opened self.old }
    {
        self.frames.open();
        self.whole = None;
        self.is_asked = false;
        self.is_being_made = false;
        self.last = None;
        self.lacks_memory = false;
    }

    /// The peer isn't connected any more: nothing waits and nothing is due.
    pub fn close(&mut self)
        ensures { self.new ≡ closed self.old }
    {
        self.frames.close();
        self.whole = None;
        self.is_asked = false;
        self.is_being_made = false;
        self.last = None;
        self.lacks_memory = false;
    }

    /// Asks for a whole, which is to wait if it says something else than the last one that was given.
    pub fn ask_whole(&mut self)
        ensures { self.new ≡ record self.old { asked = true } }
    {
        self.is_asked = true;
    }

    /// Makes a whole due, which then waits also if it says the same as the last one. All frames are given up. Where the peer isn't
    /// connected the queue stays as it is.
    pub fn require_whole(&mut self)
        ensures open { self.old.box.is_open ≡ true → self.new ≡ without_frames self.old }
        ensures closed { self.old.box.is_open ≡ false → self.new ≡ self.old }
    {
        self.frames.require_whole();
    }

    /// True if a whole is to be made for the peer: it is connected, and a whole is due, asked for, or being made.
    pub fn wants_whole(&self) -> bool
        ensures { IsTrue result ↔ WantsWhole self.now }
    {
        self.frames.is_open() && (self.frames.is_whole_due() || self.is_asked || self.is_being_made)
    }

    /// Says whether a whole is to be made for the peer, as `wants_whole` does. If so, one that is made from now on is for the peer, until
    /// one is given; a whole that was made before is not.
    pub fn begin_whole(&mut self) -> bool
        ensures { IsBegun self.old result self.new }
    {
        let wants = self.wants_whole();
        if wants {
            self.is_asked = false;
            self.is_being_made = true;
        }
        wants
    }

    /// True if an allocation was refused since the peer connected or a whole was last given.
    pub fn lacks_memory(&self) -> bool
        ensures { result ≡ self.now.lacking }
    {
        self.lacks_memory
    }

    /// Puts a frame after what waits: the queue becomes one more owner of its bytes. Where the peer isn't connected or a whole is due the
    /// queue stays as it is. Where the frame has no room all frames are given up, and a whole is due.
    ///
    /// `AllocError`: there was room, but an allocation was refused, or the bytes have 2^63 - 1 owners. All frames are given up, and a whole
    /// is due; memory is lacking.
    pub fn put(&mut self, frame: &SharedBytes) -> Result<(), AllocError>
        ensures ignored { (self.old.box.is_open ≡ false) ⊎ (self.old.box.whole_due ≡ true)
            → (result ≡ Ok tt) × (self.new ≡ self.old) }
        ensures full { self.old.box.is_open ≡ true → self.old.box.whole_due ≡ false
            → self.old.box.limit < bytes_waiting self.old.box.frames + length frame.now
            → (result ≡ Ok tt) × (self.new ≡ without_frames self.old) }
        ensures kept { self.old.box.is_open ≡ true → self.old.box.whole_due ≡ false
            → bytes_waiting self.old.box.frames + length frame.now ≤ self.old.box.limit
            → OnOk result (self.new ≡ with_frame self.old frame.now) }
        ensures memory { OnErr result (self.new ≡ out_of_memory (without_frames self.old)) }
    {
        let kept = self.frames.put(frame);
        if kept.is_err() {
            self.lacks_memory = true;
        }
        kept
    }

    // Whether a whole with this digest is news to the peer.
    fn is_news(&self, digest: &[u8; 32]) -> bool
        ensures { IsTrue result ↔ IsNews self.now digest.now }
    {
        self.frames.is_whole_due() || self.last != Some(*digest)
    }

    // Lets a whole, which has this digest, wait in the place of all that waited. It is due no more, nor being made.
    fn keep_whole(&mut self, whole: SharedBytes, digest: [u8; 32])
        requires open { self.old.box.is_open ≡ true }
        ensures { self.new ≡ record self.old {
          box = record self.old.box { whole_due = false; frames = [] };
          whole = Some whole;
          making = false;
          last = Some digest;
          lacking = false;
        } }
    {
        self.frames.require_whole();
        drop(self.frames.take());
        self.whole = Some(whole);
        self.is_being_made = false;
        self.last = Some(digest);
        self.lacks_memory = false;
    }

    /// Gives the queue a whole that was made after every frame that was put. If it was made for the peer, and a whole is due or this one
    /// isn't the same as the last one but for its heading, it waits in the place of all that waited, and is due no more. Otherwise nothing
    /// that waits changes. What was asked since it was begun stays asked. The queue becomes one more owner of its bytes.
    ///
    /// `AllocError`: the bytes have 2^63 - 1 owners. The queue stays as it is, but notes that memory is lacking: the whole stays wanted.
    pub fn give_whole(&mut self, whole: &WholeFrame<'_>) -> Result<(), AllocError>
        ensures earlier { self.old.making ≡ false → (result ≡ Ok tt) × (self.new ≡ self.old) }
        ensures same { self.old.making ≡ true
            → (IsNews self.old (content_digest whole.now) → ⊥)
            → (result ≡ Ok tt) × (self.new ≡ record self.old { making = false }) }
        ensures given { self.old.making ≡ true → IsNews self.old (content_digest whole.now)
            → OnOk result (self.new ≡ with_whole self.old whole.now) }
        ensures memory { OnErr result (self.new ≡ out_of_memory self.old) }
    {
        if !self.is_being_made {
            return Ok(());
        }
        let digest = whole.digest();
        if !self.is_news(&digest) {
            self.is_being_made = false;
            return Ok(());
        }
        let Ok(copy) = whole.bytes().copy() else {
            self.lacks_memory = true;
            return Err(AllocError);
        };
        self.keep_whole(copy, digest);
        Ok(())
    }

    /// Takes the item that has waited longest: the whole, if one waits, else the first frame. `None` exactly if no whole waits, and no
    /// frame does or a whole is due.
    pub fn take(&mut self) -> Option<SharedBytes>
        ensures item { IfSome result (λ item. IsTakenFrom self.old item self.new) }
        ensures none { IfNone result ((self.old.whole ≡ None)
            × ((self.old.box.whole_due ≡ true) ⊎ (self.old.box.frames ≡ []))) }
        ensures same { IfNone result (self.new ≡ self.old) }
    {
        if let Some(whole) = self.whole.take() {
            return Some(whole);
        }
        if self.frames.is_whole_due() {
            return None;
        }
        match self.frames.take() {
            Due::Frame(frame) => Some(frame),
            Due::Nothing | Due::Whole => None,
        }
    }

    /// True if the link has nothing to take: no whole waits, and no frame does or a whole is due.
    pub fn is_idle(&self) -> bool
        ensures { IsTrue result ↔ ((self.now.whole ≡ None)
            × ((self.now.box.whole_due ≡ true) ⊎ (self.now.box.frames ≡ []))) }
    {
        self.whole.is_none() && (self.frames.is_whole_due() || self.frames.is_idle())
    }
}
