ghost use Rattle.std.specs.Prelude.{◌≡◌, None, false};

use ami_text::Source;
use link_stream::{ItemReceiver, ReceiveFault, SendFault};
use site_journal::DeskFault;
use thiserror::Error;

/// Why what acknowledges the bytes of a link ends it (this project's own).
#[derive(Clone, Copy, Debug, PartialEq, Eq, Error)]
pub enum AcknowledgeFault {
    /// What was read could not be acknowledged.
    #[error("not acknowledged: {0}")]
    NotSent(SendFault),
    /// An item isn't whole 60 seconds after it was begun, and fewer than 8,000 bytes of it came each second.
    #[error("an item takes more than 60 s")]
    Late,
    /// The clock could not be read.
    #[error("no clock")]
    NoClock,
    /// The site ends.
    #[error("the site ends")]
    Ending,
}

/// Why a link gives no frame any more (this project's own).
#[derive(Clone, Copy, Debug, PartialEq, Eq, Error)]
pub enum InletFault {
    /// The receiver gives nothing more.
    #[error("{0}")]
    Receive(ReceiveFault),
    /// What acknowledges its bytes has ended the link.
    #[error("{0}")]
    Acknowledge(AcknowledgeFault),
}

/// What acknowledges the bytes that are read of a link (this project's own).
pub trait Acknowledge<R> {
    /// Is called after each read that gave bytes, with their number. An error ends the link.
    fn after_read(&mut self, rt: &R, count: usize) -> Result<(), AcknowledgeFault>;

    /// Is called after each item, a frame or a beat, with how many bytes are held that were read after it.
    fn after_item(&mut self, is_frame: bool, held: usize);

    /// Is called where the site has dropped the last frame, for which it has no room or no memory.
    fn fall_behind(&mut self, rt: &R, fault: DeskFault);
}

/// The end of a link that receives, over a source of its bytes: an inlet that gives the frames whose tags are right, in order. It passes
/// over beats, and has each read acknowledged. After its first fault it gives nothing.
#[derive(Drop)]
pub struct LinkInlet<S: Source + Drop, A: Drop> {
    pub(crate) receiver: ItemReceiver,
    pub(crate) source: S,
    pub(crate) acknowledger: A,
    pub(crate) fault: Option<InletFault>,
    ghost works: { fault ≡ None → S.failed source ≡ false },
    ghost goes_on: { fault ≡ None → receiver.fault ≡ None },
}
