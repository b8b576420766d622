//! Links between sites: one end sends frames as bytes, the other receives them in order, and each end counts its items.
//!
//! The received items are at all times a prefix of the sent ones: the link loses, repeats and changes nothing. A sender that is
//! to lose an item doesn't send it. A link carries bytes and knows nothing of frames.
#![tactic(auto)]

mod comparing;
mod limits;
mod link;
mod linking;
mod log;
mod receiver;
mod sender;

pub use comparing::compare;
pub use dots::Memory;
pub use limits::{LINK_CAPACITY, MOST_CAPACITY, MOST_ITEMS};
pub use link::Link;
pub use linking::{LinkEnds, SiteLinks, link_all};
pub use receiver::LinkReceiver;
pub use sender::LinkSender;
