ghost use Rattle.std.specs.Prelude.{◌≡◌, ◌⊎◌, ◌+◌, ◌<◌, ◌≤◌, [], ◌∷◌, ◌++◌, IsTrue, Ok, OnErr};
ghost use Rattle.std.specs.Prelude.{OnOk, ◌↔◌, false, length, true};
ghost use Rattle.peer_box.specs.Boxes.{IsTakenBy, bytes_waiting, emptied};

use dots::SharedBytes;
use std::alloc::{AllocError, Global};
use std::collections::VecDeque;
use std::marker::Model;

/// How many bytes of frames wait for a peer at most, where a site chooses no other limit: 1 MiB.
pub const BOX_BYTES: usize = 1_048_576;

/// What a peer's link is to send next.
#[derive(Drop)]
pub enum Due {
    /// Nothing.
    Nothing,
    /// A frame of all that the site knows at that time.
    Whole,
    /// This frame.
    Frame(SharedBytes),
}

/// The box of one peer. Frames are put into it in the order in which the site made them, and its link takes them in that order. Where more
/// bytes would wait than its limit, it gives up all of them, and a whole is due in their place. The limit counts the bytes of each frame
/// that waits, even if a journal or other boxes share them, and no other memory. A frame without bytes, which no site makes, counts as 0.
#[derive(Drop)]
pub struct PeerBox {
    limit: usize,
    is_open: bool,
    whole_due: bool,
    frames: VecDeque<SharedBytes>,
    // How many bytes the frames have together.
    waiting: usize,
}

impl Model for PeerBox {
    ghost use Rattle.std.specs.Prelude.{◌≡◌, ◌≤◌};
    ghost use Rattle.peer_box.specs.Boxes.{BoxState, bytes_waiting};

    ghost Value = { BoxState };

    ghost view = { λ b. record {
      limit = b.limit;
      is_open = b.is_open;
      whole_due = b.whole_due;
      frames = b.frames.items;
    } };

    ghost invariant = { λ b. (b.waiting ≡ bytes_waiting b.frames.items) × (b.waiting ≤ b.limit) };
}

impl PeerBox {
    /// The box of a peer that isn't connected. It takes no memory.
    pub fn new(alloc: Global, limit: usize) -> PeerBox
        ensures { result
            ≡ record { limit = limit; is_open = false; whole_due = false; frames = [] } }
    {
        PeerBox {
            limit,
            is_open: false,
            whole_due: false,
            frames: VecDeque::new(alloc),
            waiting: 0,
        }
    }

    // Drops all frames.
    fn clear(&mut self)
        ensures { self.new ≡ record self.old { frames = [] } }
    {
        self.frames.clear();
        self.waiting = 0;
    }

    /// Opens it: the peer is connected. No frame waits, and a whole is due.
    pub fn open(&mut self)
        ensures { self.new
            ≡ record self.old { is_open = true; whole_due = true; frames = [] } }
    {
        self.clear();
        self.is_open = true;
        self.whole_due = true;
    }

    /// Closes it: the peer isn't connected. Nothing waits and nothing is due.
    pub fn close(&mut self)
        ensures { self.new
            ≡ record self.old { is_open = false; whole_due = false; frames = [] } }
    {
        self.clear();
        self.is_open = false;
        self.whole_due = false;
    }

    /// Makes a whole due in the place of the frames that wait, which a whole repeats. A closed box stays as it is.
    pub fn require_whole(&mut self)
        ensures open { self.old.is_open ≡ true → self.new ≡ emptied self.old }
        ensures closed { self.old.is_open ≡ false → self.new ≡ self.old }
    {
        if self.is_open {
            self.clear();
            self.whole_due = true;
        }
    }

    // Adds a frame for which there is room. It fails only when out of memory, and then nothing is changed.
    fn keep(&mut self, frame: &SharedBytes) -> Result<(), AllocError>
        requires { bytes_waiting self.old.frames + length frame.now ≤ self.old.limit }
        ensures ok { OnOk result (self.new
            ≡ record self.old { frames = self.old.frames ++ frame.now ∷ [] }) }
        ensures err { OnErr result (self.new ≡ self.old) }
    {
        let copy = frame.copy()?;
        if self.frames.push_back(copy).is_err() {
            return Err(AllocError);
        }
        self.waiting += frame.as_slice().len();
        Ok(())
    }

    /// Puts a frame behind those that wait: the box becomes one more owner of its bytes. A box that is closed, or in which a whole is
    /// due, stays as it is: a whole that is made later has what the frame has. A box in which the frame has no room gives up its frames, and
    /// a whole is due.
    ///
    /// `AllocError`: there was room, but an allocation was refused, or the bytes have 2^63 - 1 owners. The box gives up its frames, and a
    /// whole is due.
    pub fn put(&mut self, frame: &SharedBytes) -> Result<(), AllocError>
        ensures ignored { (self.old.is_open ≡ false) ⊎ (self.old.whole_due ≡ true)
            → (result ≡ Ok tt) × (self.new ≡ self.old) }
        ensures full { self.old.is_open ≡ true → self.old.whole_due ≡ false
            → self.old.limit < bytes_waiting self.old.frames + length frame.now
            → (result ≡ Ok tt) × (self.new ≡ emptied self.old) }
        ensures kept { self.old.is_open ≡ true → self.old.whole_due ≡ false
            → bytes_waiting self.old.frames + length frame.now ≤ self.old.limit
            → OnOk result (self.new
            ≡ record self.old { frames = self.old.frames ++ frame.now ∷ [] }) }
        ensures memory { OnErr result (self.new ≡ emptied self.old) }
    {
        if !self.is_open || self.whole_due {
            return Ok(());
        }
        if frame.as_slice().len() > self.limit - self.waiting {
            self.require_whole();
            return Ok(());
        }
        let kept = self.keep(frame);
        if kept.is_err() {
            self.require_whole();
        }
        kept
    }

    /// Takes what is due: a whole, if one is, which then is due no more; else the frame that has waited longest; else nothing. A
    /// frame that is put while the caller makes the whole is put behind it, and says at worst what the whole says too.
    ///
    /// A caller that can't make the whole, as when it is out of memory, calls `require_whole`: until then no whole is due, and the peer may
    /// lack what the site knows. If the peer's link ends before the whole was sent, the next `open` makes one due again.
    pub fn take(&mut self) -> Due
        ensures { IsTakenBy self.old result self.new }
    {
        if self.whole_due {
            self.whole_due = false;
            return Due::Whole;
        }
        match self.frames.pop_front() {
            None => Due::Nothing,
            Some(frame) => {
                self.waiting -= frame.as_slice().len();
                Due::Frame(frame)
            }
        }
    }

    /// True if its peer is connected.
    pub fn is_open(&self) -> bool
        ensures { result ≡ self.now.is_open }
    {
        self.is_open
    }

    /// True if a whole is due.
    pub fn is_whole_due(&self) -> bool
        ensures { result ≡ self.now.whole_due }
    {
        self.whole_due
    }

    /// True if nothing is due and no frame waits.
    pub fn is_idle(&self) -> bool
        ensures { IsTrue result ↔ ((self.now.whole_due ≡ false) × (self.now.frames ≡ [])) }
    {
        !self.whole_due && self.frames.is_empty()
    }
}
