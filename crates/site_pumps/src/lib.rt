//! Pumps: each carries the frames of a site to its outlets, or those of other sites from an inlet to the site.
//!
//! A pump has a port, outlets and an inlet as values, so that it knows nothing of locks, and a desk knows nothing of links. `pump_out`
//! sends by a plan, a list of deeds for the frames. `broadcast` sends each frame on every outlet. Bytes that have 2^63 - 1 owners get
//! no further one: here that counts as out of memory.
#![tactic(auto)]

mod brief_sender;
mod broadcasting;
mod deed;
mod inlet;
mod inward;
pub mod laws;
mod link_plan;
mod outgoing;
mod outlet;
mod outward;
mod receipt_sink;
mod sending;

pub use brief_sender::{BriefSender, MOST_OFFERS};
pub use broadcasting::{broadcast, broadcast_whole};
pub use deed::Deed;
pub use inlet::Inlet;
pub use inward::{PumpedIn, pump_in};
pub use link_plan::LinkPlan;
pub use outlet::Outlet;
pub use outward::{PumpedOut, pump_out};
pub use receipt_sink::{NoReceipts, ReceiptSink};
