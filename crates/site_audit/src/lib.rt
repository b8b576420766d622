//! One list of events that explains the journals of all sites.
//!
//! An audit replays the steps of all journals, each after those that it needs: a take waits until its frame was made. If all are
//! replayed, the list of events gives each site exactly its journal in the world of operations. If no step can follow, the list is
//! stuck.
#![tactic(auto)]

mod audit_fault;
mod auditing;
mod explanation;
pub mod laws;
mod pool;
mod replay;

pub use audit_fault::AuditFault;
pub use auditing::{audit, explain};
pub use dots::Memory;
pub use explanation::Explanation;
pub use sites_world::Event;
