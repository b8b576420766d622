//! A site under its lock, and the passes by which threads call it.
//!
//! The lock guards the site's journal, so its steps are legal whenever the lock is free. A call does one step, counts it for its
//! pass, and returns its receipt or the answer. When a desk is closed, its journal has as many steps as its passes have counted
//! together.
#![tactic(auto)]

mod close_fault;
mod closing;
mod desk;
mod desk_port;
mod gate;
mod guarded_journal;
pub mod laws;
mod pass;
mod site_bell;
mod site_ledger;

pub use close_fault::CloseFault;
pub use closing::close;
pub use desk::{MOST_PASSES, SiteDesk};
pub use desk_port::DeskPort;
pub use dots::Memory;
pub use gate::Gate;
pub use guarded_journal::GuardedJournal;
pub use pass::Pass;
pub use site_bell::{Heard, SiteBell};
pub use site_ledger::SiteLedger;
