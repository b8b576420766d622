//! A site with a store: no answer and no frame leaves it before its step is durable.
//!
//! A step is done in memory under the site's lock. Then its caller waits until the step is in the store, unless it is a take: one of those
//! who wait takes the store and commits all steps that aren't saved yet at once, while no lock is held. Receipts of asks, cuts and wholes
//! leave only as [`Settled`].
#![tactic(auto)]

mod done;
mod history;
mod mark;
mod recorded_site;
mod saved_steps;
mod settled;
mod shelf;
mod step_store;
mod stored_desk;
mod stored_ledger;
mod stored_port;
mod turns;
mod vault;

pub use history::NewHistory;
pub use mark::NewMark;
pub use saved_steps::SavedSteps;
pub use settled::Settled;
pub use step_store::{CommitFault, Growth, StepStore};
pub use stored_desk::StoredDesk;
pub use stored_ledger::StoredLedger;
pub use stored_port::StoredPort;
