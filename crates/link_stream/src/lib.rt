//! What a link between two sites carries after its hello: items one way and acknowledgements back (this project's own).
//!
//! An item is a frame as `delta_codec` spells it, or a beat: four bytes of 0, where a frame has its length. An acknowledgement is eight
//! bytes. Each of them is followed by its tag: 16 bytes of HMAC-SHA-256 under the key of its direction, over a counter that begins at 0
//! and the bytes. [`ItemSender`] and [`AcknowledgementSender`] write them to a sink. [`ItemReceiver`] and [`AcknowledgementReceiver`]
//! read them from a source in pieces of any size, and give nothing whose tag is wrong.
#![tactic(auto)]

mod acknowledgement;
mod acknowledgement_receiver;
mod item;
mod item_receiver;
pub mod laws;
mod receive_fault;
mod senders;
mod tagged_bytes;

pub use acknowledgement::{ACKNOWLEDGEMENT_BYTES, Acknowledgement};
pub use acknowledgement_receiver::AcknowledgementReceiver;
pub use item::{BEAT, Item};
pub use item_receiver::ItemReceiver;
pub use receive_fault::ReceiveFault;
pub use senders::{AcknowledgementSender, ItemSender, SendFault};
