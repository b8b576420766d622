//! Deltas: a site's state, and what it sends to others. A delta is a set of members and totals; join is commutative,
//! associative and idempotent (RR-7506: states form a join semilattice).
#![tactic(auto)]

mod delta;
mod frame;
pub mod laws;
mod parts;

pub use delta::Delta;
pub use frame::Frame;
pub use member_orset::JoinFault;
pub use site_totals::Memory;
