//! What is sent over a link: items one way, acknowledgements back.
ghost use Rattle.std.specs.Prelude.{◌≡◌, ◌↔◌, ◌++◌, ◌+◌, ◌-◌, ◌^◌, ◌≤◌, Err, IsErrOf, OnErr, OnOk};
ghost use Rattle.std.specs.Prelude.{false, length, true};
ghost use Rattle.std.specs.Io.KnownBytes.{Appends};
ghost use Rattle.ami_text.specs.Devices.{HasTaken};
ghost use Rattle.link_stream.specs.Items.{IsFrame, acknowledgement_bytes, beat};
ghost use Rattle.link_stream.specs.Sending.{HasSent};
ghost use Rattle.link_stream.specs.Tagged.{tagged};

use crate::acknowledgement::bytes_of;
use crate::item::is_frame;
use crate::{Acknowledgement, BEAT};
use ami_text::{Failed, Sink, write_all};
use arrayvec::ArrayVec;
use link_keys::{Key, TAG_BYTES, tag};
use std::marker::Model;
use thiserror::Error;

/// Why an item or an acknowledgement isn't sent (this project's own).
#[derive(Clone, Copy, Debug, PartialEq, Eq, Error)]
pub enum SendFault {
    /// The bytes aren't those of a frame.
    #[error("not a frame")]
    NotAFrame,
    /// As many were sent as a counter can count: 2^64 - 1.
    #[error("no counter left")]
    Exhausted,
    /// The sink failed.
    #[error("the connection failed")]
    Failed,
}

// The most bytes of an item that is written with its tag in one piece.
const SMALL_ITEM: usize = 1_008;

// A small item and its tag.
type Piece = ArrayVec<u8, 1_024>;

// The bytes of a small item, and its tag after them.
fn piece_of(item: &[u8], tag: &[u8; TAG_BYTES]) -> Piece
    requires { length item.now ≤ SMALL_ITEM }
    ensures { result.items ≡ item.now ++ tag.now }
{
    let mut piece = Piece::new();
    let _ = piece.try_extend_from_slice(item);
    let _ = piece.try_extend_from_slice(tag);
    piece
}

// Writes an item and then its tag. `Failed`: the sink failed; it has taken a prefix of them.
#[tactic(auto, using(crate::proofs::Taken::taken_all, crate::proofs::Taken::taken_before, crate::proofs::Taken::taken_behind))]
fn write_in_turn<W: Sink>(sink: &mut W, item: &[u8], tag: &[u8; TAG_BYTES]) -> Result<(), Failed>
    requires { W.failed sink.old ≡ false }
    ensures written { OnOk result (Appends (W.taken sink.old) (W.taken sink.new)
        (item.now ++ tag.now)) }
    ensures works { OnOk result (W.failed sink.new ≡ false) }
    ensures begun { OnErr result (HasTaken (W.taken sink.old) (W.taken sink.new)
        (item.now ++ tag.now)) }
    ensures fails { OnErr result (W.failed sink.new ≡ true) }
{
    write_all(sink, item)?;
    write_all(sink, tag)
}

// Writes an item and its tag, in one piece if the item is small: then one write carries both, and the peer is woken once. `Failed`: the
// sink failed; it has taken a prefix of them.
fn write_both<W: Sink>(sink: &mut W, item: &[u8], tag: &[u8; TAG_BYTES]) -> Result<(), Failed>
    requires { W.failed sink.old ≡ false }
    ensures written { OnOk result (Appends (W.taken sink.old) (W.taken sink.new)
        (item.now ++ tag.now)) }
    ensures works { OnOk result (W.failed sink.new ≡ false) }
    ensures begun { OnErr result (HasTaken (W.taken sink.old) (W.taken sink.new)
        (item.now ++ tag.now)) }
    ensures fails { OnErr result (W.failed sink.new ≡ true) }
{
    if item.len() > SMALL_ITEM {
        return write_in_turn(sink, item, tag);
    }
    let piece = piece_of(item, tag);
    write_all(sink, piece.as_slice())
}

// Writes bytes and their tag. `Failed`: the sink failed; it has taken a prefix of them.
fn write_tagged<W: Sink>(
    sink: &mut W,
    key: &Key,
    counter: u64,
    item: &[u8],
) -> Result<(), SendFault>
    requires { W.failed sink.old ≡ false }
    ensures written { OnOk result (Appends (W.taken sink.old) (W.taken sink.new)
        (tagged key.now counter item.now)) }
    ensures works { OnOk result (W.failed sink.new ≡ false) }
    ensures begun { OnErr result (HasTaken (W.taken sink.old) (W.taken sink.new)
        (tagged key.now counter item.now)) }
    ensures fails { OnErr result ((W.failed sink.new ≡ true) × (result ≡ Err SendFault.Failed)) }
{
    let tag = tag(key, counter, item);
    match write_both(sink, item, &tag) {
        Ok(()) => Ok(()),
        Err(_) => Err(SendFault::Failed),
    }
}

// Writes bytes and their tag under the number of those that were sent before, and counts them. Errors, in order: `Exhausted`, and
// nothing is written; `Failed`: the sink failed, and has taken a prefix of them. A failed one is counted too, so that no two have one
// counter.
fn send_tagged<W: Sink>(
    sink: &mut W,
    key: &Key,
    sent: &mut u64,
    item: &[u8],
) -> Result<(), SendFault>
    requires { W.failed sink.old ≡ false }
    ensures written { OnOk result (Appends (W.taken sink.old) (W.taken sink.new)
        (tagged key.now sent.old item.now)) }
    ensures sent { OnOk result (sent.new ≡ sent.old + 1) }
    ensures counted { IsErrOf result SendFault.Failed → sent.new ≡ sent.old + 1 }
    ensures works { OnOk result (W.failed sink.new ≡ false) }
    ensures exhausted { IsErrOf result SendFault.Exhausted ↔ (sent.old ≡ 2 ^ 64 - 1) }
    ensures unwritten { IsErrOf result SendFault.Exhausted
        → (sink.new ≡ sink.old) × (sent.new ≡ sent.old) }
    ensures fails { IsErrOf result SendFault.Failed ↔ (W.failed sink.new ≡ true) }
    ensures begun { IsErrOf result SendFault.Failed → HasTaken (W.taken sink.old)
        (W.taken sink.new) (tagged key.now sent.old item.now) }
    ensures is_frame { IsErrOf result SendFault.NotAFrame → ⊥ }
{
    if *sent == u64::MAX {
        return Err(SendFault::Exhausted);
    }
    let counter = *sent;
    *sent += 1;
    write_tagged(sink, key, counter, item)
}

/// The end of a link that sends items: the key of its direction, and how many items it has sent, which is the next one's counter.
#[derive(Drop)]
pub struct ItemSender {
    key: Key,
    sent: u64,
}

impl Model for ItemSender {
    ghost use Rattle.link_stream.specs.Sending.{SenderState};

    ghost Value = { SenderState };

    ghost view = { λ s. record { key = s.key; sent = s.sent } };
}

impl ItemSender {
    /// A sender under this key that has sent nothing.
    pub fn new(key: Key) -> ItemSender
        ensures { result ≡ record { key = key; sent = 0 } }
    {
        ItemSender { key, sent: 0 }
    }

    /// Sends a beat and its tag.
    ///
    /// Errors, in order: `Exhausted`, and nothing is written; `Failed`: the sink failed, and has taken a prefix of the beat and its tag. The
    /// counter of a failed one isn't used again.
    pub fn send_beat<W: Sink>(&mut self, sink: &mut W) -> Result<(), SendFault>
        requires { W.failed sink.old ≡ false }
        ensures sent { OnOk result
            (HasSent (W.taken sink.old) (W.taken sink.new) self.old beat self.new) }
        ensures works { OnOk result (W.failed sink.new ≡ false) }
        ensures exhausted { IsErrOf result SendFault.Exhausted ↔ (self.old.sent ≡ 2 ^ 64 - 1) }
        ensures unwritten { IsErrOf result SendFault.Exhausted
            → (sink.new ≡ sink.old) × (self.new ≡ self.old) }
        ensures counted { IsErrOf result SendFault.Failed
            → self.new ≡ record self.old { sent = self.old.sent + 1 } }
        ensures fails { IsErrOf result SendFault.Failed ↔ (W.failed sink.new ≡ true) }
        ensures begun { IsErrOf result SendFault.Failed → HasTaken (W.taken sink.old)
            (W.taken sink.new) (tagged self.old.key self.old.sent beat) }
        ensures is_frame { IsErrOf result SendFault.NotAFrame → ⊥ }
    {
        send_tagged(sink, &self.key, &mut self.sent, &BEAT)
    }

    /// Sends the bytes of a frame and their tag.
    ///
    /// Errors, in order: `NotAFrame` where the bytes aren't a length that a frame may have and as many bytes after it, and `Exhausted`,
    /// both with nothing written; `Failed`: the sink failed, and has taken a prefix of the frame and its tag. The counter of a failed one
    /// isn't used again.
    pub fn send_frame<W: Sink>(&mut self, sink: &mut W, frame: &[u8]) -> Result<(), SendFault>
        requires { W.failed sink.old ≡ false }
        ensures sent { OnOk result
            (HasSent (W.taken sink.old) (W.taken sink.new) self.old frame.now self.new) }
        ensures works { OnOk result (W.failed sink.new ≡ false) }
        ensures not_a_frame { IsErrOf result SendFault.NotAFrame ↔ (IsFrame frame.now → ⊥) }
        ensures exhausted { IsErrOf result SendFault.Exhausted
            ↔ (IsFrame frame.now × (self.old.sent ≡ 2 ^ 64 - 1)) }
        ensures fails { IsErrOf result SendFault.Failed ↔ (W.failed sink.new ≡ true) }
        ensures unwritten { W.failed sink.new ≡ false
            → OnErr result ((sink.new ≡ sink.old) × (self.new ≡ self.old)) }
        ensures counted { IsErrOf result SendFault.Failed
            → self.new ≡ record self.old { sent = self.old.sent + 1 } }
        ensures begun { IsErrOf result SendFault.Failed → HasTaken (W.taken sink.old)
            (W.taken sink.new) (tagged self.old.key self.old.sent frame.now) }
    {
        if !is_frame(frame) {
            return Err(SendFault::NotAFrame);
        }
        send_tagged(sink, &self.key, &mut self.sent, frame)
    }
}

/// The end of a link that sends acknowledgements: the key of its direction, and how many it has sent, which is the next one's counter.
#[derive(Drop)]
pub struct AcknowledgementSender {
    key: Key,
    sent: u64,
}

impl Model for AcknowledgementSender {
    ghost use Rattle.link_stream.specs.Sending.{SenderState};

    ghost Value = { SenderState };

    ghost view = { λ s. record { key = s.key; sent = s.sent } };
}

impl AcknowledgementSender {
    /// A sender under this key that has sent nothing.
    pub fn new(key: Key) -> AcknowledgementSender
        ensures { result ≡ record { key = key; sent = 0 } }
    {
        AcknowledgementSender { key, sent: 0 }
    }

    /// Sends an acknowledgement and its tag.
    ///
    /// Errors, in order: `Exhausted`, and nothing is written; `Failed`: the sink failed, and has taken a prefix of them. The counter of a
    /// failed one isn't used again.
    pub fn send<W: Sink>(
        &mut self,
        sink: &mut W,
        acknowledgement: Acknowledgement,
    ) -> Result<(), SendFault>
        requires { W.failed sink.old ≡ false }
        ensures sent { OnOk result (HasSent (W.taken sink.old) (W.taken sink.new) self.old
            (acknowledgement_bytes acknowledgement) self.new) }
        ensures works { OnOk result (W.failed sink.new ≡ false) }
        ensures exhausted { IsErrOf result SendFault.Exhausted ↔ (self.old.sent ≡ 2 ^ 64 - 1) }
        ensures unwritten { IsErrOf result SendFault.Exhausted
            → (sink.new ≡ sink.old) × (self.new ≡ self.old) }
        ensures counted { IsErrOf result SendFault.Failed
            → self.new ≡ record self.old { sent = self.old.sent + 1 } }
        ensures fails { IsErrOf result SendFault.Failed ↔ (W.failed sink.new ≡ true) }
        ensures begun { IsErrOf result SendFault.Failed → HasTaken (W.taken sink.old)
            (W.taken sink.new)
            (tagged self.old.key self.old.sent (acknowledgement_bytes acknowledgement)) }
        ensures is_frame { IsErrOf result SendFault.NotAFrame → ⊥ }
    {
        send_tagged(sink, &self.key, &mut self.sent, &bytes_of(acknowledgement))
    }
}
