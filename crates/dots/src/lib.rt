//! The values of Queue Sites within their limits: sites, dots, stamps, short texts, members and
//! their fields, with their orders, and bytes that are held unchanged, by one owner or several.
//!
//! A value that exists is within its limits, so no crate above tests them again.
#![tactic(auto)]

mod bytes;
mod call_totals;
mod calls;
mod dot;
mod interface;
mod label;
mod limits;
mod member;
mod pause;
mod penalty;
mod queue_name;
mod shared_bytes;
mod site_id;
mod stamp;
mod text80;
mod text_fault;

pub use bytes::Bytes;
pub use call_totals::CallTotals;
pub use calls::Calls;
pub use dot::Dot;
pub use interface::Interface;
pub use label::Label;
pub use limits::{
    MOST_CALLS, MOST_COUNT, MOST_LIVE, MOST_PEERS, MOST_PENALTY, MOST_RUNS, QUEUES, SITES,
    TEXT_BYTES,
};
pub use member::Member;
pub use pause::Pause;
pub use penalty::Penalty;
pub use queue_name::QueueName;
pub use shared_bytes::SharedBytes;
pub use site_id::SiteId;
pub use stamp::Stamp;
pub use std::alloc::AllocError as Memory;
pub use text_fault::TextFault;
pub use text80::Text80;
