//! The links of one site over TCP: what its threads do for them (this project's own).
//!
//! A thread of the site makes frames and hands them to the outboxes of its peers: [`spread`]. A thread for each peer dials it, and sends
//! what waits for it, in order: [`send_link`]. Further threads accept connections, and let the site take the frames that come over them:
//! [`take_frames`]. These loops are proved over any queue, source and sink; sockets stand below them.
#![tactic(auto)]

mod acknowledging;
mod back_off;
mod clock;
mod closing;
mod dialing;
mod ending;
mod giving;
mod heard_frames;
mod heard_links;
mod hearing;
mod hello_source;
mod item_queue;
mod item_time;
mod lag;
pub mod laws;
mod link_inlet;
mod link_log;
mod link_queue;
mod link_sink;
mod made_frame;
mod meeting;
mod outbox;
mod peer_links;
mod read_count;
mod receiving;
mod send_queue;
mod sending;
mod shared_queue;
mod shared_roll;
mod spreading;
mod stream_ends;
mod taking;
mod whole_frame;
mod window;
mod window_sink;

pub use back_off::{BackOff, DialEnd};
pub use dialing::{DialFault, dial_peer};
pub use ending::{EndReason, Ending};
pub use hearing::{HearFault, hear_peers};
pub use item_queue::ItemQueue;
pub use item_time::ItemTime;
pub use lag::{Lag, LagStep};
pub use link_inlet::{Acknowledge, AcknowledgeFault, InletFault, LinkInlet};
pub use link_log::LinkLog;
pub use link_sink::LinkSink;
pub use made_frame::MadeFrame;
pub use meeting::{Meeting, meet_acceptor, meet_dialer};
pub use outbox::Outbox;
pub use peer_links::{PeerLinks, Ring, end_links};
pub use read_count::ReadCount;
pub use send_queue::SendQueue;
pub use sending::{send_items, send_link};
pub use shared_queue::{SharedOutbox, SharedQueue};
pub use shared_roll::SharedRoll;
pub use spreading::{spread, spread_once};
pub use taking::take_frames;
pub use whole_frame::WholeFrame;
pub use window::{MOST_AHEAD, MOST_WRITTEN, Window, WindowFault};
pub use window_sink::OutletFault;
