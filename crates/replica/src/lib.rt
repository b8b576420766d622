//! One site's replica of the queue members: the members of each queue, their fields, and the numbers of counted calls.
//!
//! Commands change a replica, and frames of other sites. Each is refused for a named cause and then changes nothing, or is
//! done whole.
#![tactic(auto)]

mod changes;
mod command;
mod commands;
mod cut_fault;
mod exhausted;
mod foreign;
mod frames;
mod full;
mod joining;
pub mod laws;
mod planned;
mod queue_list;
mod refusal;
mod replica;
mod restore_fault;
mod restored;
mod seen_dots;
mod setting;
mod take_fault;

pub use command::Command;
pub use cut_fault::CutFault;
pub use delta::Frame;
pub use dots::Memory;
pub use member_orset::Rows;
pub use operations::Row;
pub use queue_list::{ListFault, QueueList};
pub use refusal::Refusal;
pub use replica::Replica;
pub use restore_fault::RestoreFault;
pub use take_fault::TakeFault;
