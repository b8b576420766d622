//! The store of a site, in an SQLite database, as where a desk saves the site's steps.
//!
//! [`RestoredDatabase`] is a store whose site is restored, before a start of it. [`StepDatabase`] then adds the rows of a group of steps
//! in one commit, and puts a new base in the place of all rows. Its steps are those since the site's last start; the rows from before lead
//! the stored base to what the site said then.
#![tactic(auto)]

pub mod laws;
mod ready_base;
mod restoring;
mod resuming;
mod step_database;
mod writing;

pub use ready_base::ReadyBase;
pub use restoring::RestoredDatabase;
pub use step_database::StepDatabase;
